//! Code while it is compiled, with its names.
ghost use Rattle.std.specs.Prelude.{◌≡◌, ◌≤◌, [], length, IfOk, OnOk};
ghost use Rattle.platoms.specs.Names.{IsTable};
ghost use Rattle.plterm.specs.Reading.{IsName};
ghost use Rattle.plcode.specs.Steps.{text};
ghost use Rattle.plcode.specs.Bodies.{IsCode};

use crate::node::Node;
use crate::op::{Op, Step};
use platoms::names::Names;
use plterm::name::Name;
use std::alloc::{AllocError, Global};

/// The name with a text that is short enough for one.
pub(crate) fn name_of(alloc: Global, text: &str) -> Result<Name, AllocError>
    requires { length text.now ≤ 65535 }
    ensures text { IfOk result (λ name. name ≡ text.now) }
    ensures short { IfOk result (λ name. IsName name) }
{
    let name = Name::new(alloc, text)?;
    prove!(name.len() <= 65535);
    Ok(name)
}

/// The names, nodes and steps of clauses. They grow, and what stands in them stays as it is.
#[derive(Drop)]
pub struct Draft {
    pub names: Names,
    pub nodes: Vec<Node>,
    pub steps: Vec<Step>,
}

impl Draft {
    /// The code of no clauses. It has the sequence of fail/0 alone, which is the else of each `->` that has none.
    pub fn new(alloc: Global) -> Result<Draft, AllocError>
        ensures { IfOk result (λ c. IsCode (text c)) }
    {
        let mut draft = Draft {
            names: Names::new(alloc),
            nodes: Vec::new(alloc),
            steps: Vec::new(alloc),
        };
        draft.begin(alloc)?;
        Ok(draft)
    }

    /// Puts the sequence of fail/0 where there is nothing.
    fn begin(&mut self, alloc: Global) -> Result<(), AllocError>
        requires table { IsTable self.old.names }
        requires nodes { self.old.nodes.items ≡ [] }
        requires steps { self.old.steps.items ≡ [] }
        ensures { OnOk result (IsCode (text self.new)) }
    {
        let fail = self.names.atom(&name_of(alloc, "fail")?)?;
        self.nodes.push(Node::Atom(fail))?;
        self.steps.push(Step {
            op: Op::Proceed,
            conjunctions: 0,
            goal: 0,
        })?;
        self.steps.push(Step {
            op: Op::Goal,
            conjunctions: 0,
            goal: 0,
        })?;
        Ok(())
    }
}
