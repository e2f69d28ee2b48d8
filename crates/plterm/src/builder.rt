//! Terms built from their nodes, each compound behind its arguments.
ghost use Rattle.std.specs.Prelude.{◌≡◌, ◌<◌, ◌≤◌, [], ◌∷◌, length, IfOk, OnErr, OnOk};
ghost use Rattle.plterm.specs.Tree.{Tree};
ghost use Rattle.plterm.specs.Reading.{arity};
ghost use Rattle.plterm.specs.Building.{with_node, IsWithinLimits};

use crate::node::Node;
use crate::postfix::reordered;
use crate::term::Term;
use std::alloc::{AllocError, Global};
use std::marker::Model;

/// Terms that are complete so far, the latest first. A node takes as its arguments as many of the latest as its arity.
#[derive(Drop)]
pub struct Builder {
    // Each compound behind its arguments.
    nodes: Vec<Node>,
}

impl Model for Builder {
    ghost use Rattle.std.specs.Prelude.{List};
    ghost use Rattle.plterm.specs.Tree.{Tree};
    ghost use Rattle.plterm.specs.Walking.{forest_code};
    ghost use Rattle.plterm.specs.Building.{trees_of};
    ghost use Rattle.plterm.specs.Postfix.{IsPostfix};

    ghost Value = { List Tree };

    ghost coded = { forest_code };

    ghost view = { λ a. trees_of a.nodes.items };

    ghost invariant = { λ a. IsPostfix a.nodes.items };
}

impl Builder {
    /// A builder that holds no term.
    pub fn new(alloc: Global) -> Builder
        ensures { result ≡ [] }
    {
        Builder {
            nodes: Vec::new(alloc),
        }
    }

    /// Adds a node, which takes its arguments from the latest terms: the last argument is the latest.
    pub fn push(&mut self, node: Node) -> Result<(), AllocError>
        requires limits { IsWithinLimits node }
        requires room { arity node ≤ length self.old }
        ensures ok { OnOk result (self.new ≡ with_node node self.old) }
        ensures err { OnErr result (self.new ≡ self.old) }
    {
        let _fitting = node.name_len();
        self.nodes.push(node)?;
        Ok(())
    }

    /// The one term that is complete, in time linear in its nodes.
    pub fn finish(self, alloc: Global) -> Result<Term, AllocError>
        requires { length self ≡ 1 }
        ensures { IfOk result (λ t. self ≡ t ∷ []) }
    {
        let Builder { nodes } = self;
        let nodes = reordered(alloc, nodes)?;
        Ok(Term::of_nodes(nodes))
    }
}
