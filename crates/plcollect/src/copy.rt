//! Copies of values' terms, by their nodes.
ghost use Rattle.std.specs.Prelude.{◌≡◌, [], map, IfOk, OnOk};
ghost use Rattle.plterm.specs.Variables.{numbered, seen_after, with_node};
ghost use Rattle.plcells.specs.Store.{value, IsValue};
ghost use Rattle.plcollect.specs.Copies.{IsCopyOf};

use crate::seen::Seen;
use plcells::cell::Cell;
use plcells::heap::Heap;
use plcells::id::CellId;
use plterm::node::Node;
use std::alloc::{AllocError, Global};

/// What makes copies: the nodes of the latest one, in prefix order from the end, and room that each takes again, for the cells that are left of a
/// term and for its variables.
#[derive(Drop)]
pub struct Copier {
    pub(crate) nodes: Vec<Node>,
    stack: Vec<CellId>,
    seen: Seen,
}

/// Numbers the variable that a node may be by its place among those seen, which it is one of from then on.
fn number_node(seen: &mut Seen, node: &mut Node) -> Result<(), AllocError>
    ensures node { OnOk result (node.new ≡ numbered seen.old node.old) }
    ensures seen { OnOk result (seen.new ≡ with_node seen.old node.old) }
{
    if let Node::Var(variable) = node {
        let place = seen.place_of(*variable)?;
        *node = Node::Var(place);
    }
    Ok(())
}

/// Numbers the variables of nodes from 0 by first occurrence.
fn number_all(seen: &mut Seen, nodes: &mut Vec<Node>) -> Result<(), AllocError>
    requires none { seen.old ≡ [] }
    ensures nodes { OnOk result (nodes.new.items ≡ map (numbered (seen_after [] nodes.old.items)) nodes.old.items) }
    ensures seen { OnOk result (seen.new ≡ seen_after [] nodes.old.items) }
{
    for i in 0..nodes.len() {
        number_node(seen, &mut nodes[i])?;
    }
    Ok(())
}

impl Copier {
    /// One that has made no copy.
    pub fn new(alloc: Global) -> Copier
        ensures { result.nodes.items ≡ [] }
    {
        Copier {
            nodes: Vec::new(alloc),
            stack: Vec::new(alloc),
            seen: Seen::new(alloc),
        }
    }

    /// Makes the nodes of a copy of a value's term: how many variables the copy has.
    pub fn copy(&mut self, alloc: Global, heap: &Heap, v: Cell) -> Result<u32, AllocError>
        requires { IsValue heap.now v }
        ensures { IfOk result (λ n. IsCopyOf self.new.nodes.items n (value heap.now v)) }
    {
        self.nodes.clear();
        heap.take_nodes(&mut self.nodes, &mut self.stack, v)?;
        self.seen.clear(alloc);
        number_all(&mut self.seen, &mut self.nodes)?;
        self.nodes.reverse();
        match self.seen.count() {
            Some(count) => Ok(count),
            None => Err(AllocError),
        }
    }
}
