//! The nodes and steps of clauses.
ghost use Rattle.std.specs.Prelude.{◌≡◌};
ghost use Rattle.platoms.specs.Names.{Table};
ghost use Rattle.plcode.specs.Steps.{step_at, text, text_of, Meets};
ghost use Rattle.plcode.specs.Bodies.{IsCode};

use crate::draft::Draft;
use crate::node::Node;
use crate::op::{Op, Step};
use platoms::names::Names;

/// The nodes and steps of clauses, whose names are in a table beside them.
#[derive(Drop)]
pub struct Code {
    nodes: Vec<Node>,
    steps: Vec<Step>,
}

impl Code {
    /// The code of a draft, and its names.
    pub fn of(draft: Draft) -> (Code, Names)
        ensures { text_of result.1 result.0 ≡ text draft }
    {
        let Draft {
            names,
            nodes,
            steps,
        } = draft;
        (Code { nodes, steps }, names)
    }

    /// The step at a place, and past the last one the end of a sequence; the one behind it stands at the place before.
    #[inline(always)]
    pub fn step(&self, place: u32) -> Step
        ensures is { (t : Table) → result ≡ step_at (text_of t self.now) place }
        ensures meets { (t : Table) → IsCode (text_of t self.now) → Meets (text_of t self.now) place result }
    {
        self.steps.get(place as usize).copied().unwrap_or(Step {
            op: Op::Proceed,
            conjunctions: 0,
            goal: 0,
        })
    }

    /// The nodes.
    #[inline(always)]
    pub fn nodes(&self) -> &[Node]
        ensures { result.now ≡ self.now.nodes.items }
    {
        self.nodes.as_slice()
    }
}
