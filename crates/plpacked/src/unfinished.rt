//! Terms that are put in prefix order, while parts of them are still to come.
ghost use Rattle.std.specs.Prelude.{◌≡◌, ◌+◌, ◌<◌, ◌≤◌, ℕ, [], length, IfOk, OnOk};
ghost use Rattle.plterm.specs.Reading.{Fits};
ghost use Rattle.plpack.specs.Items.{IsNumbered};
ghost use Rattle.plcells.specs.Store.{IsFresh, Keeps, Store};
ghost use Rattle.plpacked.specs.Unfinished.{end_from, Adds, AreVariables, Closes, IsFull, IsStage, IsUnfinished, PutsVariable};

use plcells::cell::{Argument, Cell};
use plcells::heap::Heap;
use plcells::id::CellId;
use plterm::node::Node;
use std::alloc::{AllocError, Global};

/// A compound that waits for arguments: its functor, where its own begin among the values, and where they end once all are there.
#[derive(Clone, Copy)]
pub(crate) struct Open {
    pub functor: u32,
    pub first: usize,
    pub end: usize,
}

/// What is next for an unfinished term.
#[derive(Clone, Copy)]
pub(crate) enum Stage {
    /// The innermost compound has all its arguments, and is to be closed.
    Full(Open),
    /// The term is finished: its value.
    Whole(Cell),
    /// A node is to come.
    Waiting,
}

/// A term of which some nodes have been put: the values that are there, the compounds that wait for some of their arguments, the innermost
/// last, the cells of its variables in their order, and the number of the first of these.
#[derive(Drop)]
pub(crate) struct Unfinished {
    pub values: Vec<Argument>,
    pub compounds: Vec<Open>,
    pub variables: Vec<CellId>,
    pub number: u64,
}

/// The value of a variable of a term: one that was seen has its cell, and the next one is new.
fn variable_value(
    heap: &mut Heap,
    variables: &mut Vec<CellId>,
    number: u64,
    x: u64,
) -> Result<Cell, AllocError>
    requires seen { x ≤ length variables.old.items }
    requires are { AreVariables heap.old number variables.old.items }
    requires fresh { (n : ℕ) → number + length variables.old.items ≤ n → IsFresh heap.old n }
    ensures ok { IfOk result (λ v. PutsVariable heap.old heap.new number x v variables.old.items variables.new.items) }
    ensures keeps { Keeps heap.old heap.new }
{
    if let Some(c) = variables.get(x as usize) {
        return Ok(Cell::Ref(*c));
    }
    let Some(next) = number.checked_add(x) else {
        return Err(AllocError);
    };
    heap.note_closed()?;
    let c = heap.variable(next)?;
    variables.push(c)?;
    Ok(Cell::Ref(c))
}

impl Unfinished {
    /// None of the nodes, for a term whose variables are to have numbers from one on.
    pub(crate) fn new(alloc: Global, number: u64) -> Unfinished
        ensures { (result.values.items ≡ []) × (result.compounds.items ≡ []) × (result.variables.items ≡ []) × (result.number ≡ number) }
    {
        Unfinished {
            values: Vec::new(alloc),
            compounds: Vec::new(alloc),
            variables: Vec::new(alloc),
            number,
        }
    }

    /// What is next.
    pub(crate) fn stage(&self) -> Stage
        requires { (h : Store) × IsUnfinished h self.now }
        ensures { IsStage self.now result }
    {
        let count = self.compounds.len();
        if count > 0 {
            let innermost = self.compounds[count - 1];
            if innermost.end == self.values.len() {
                return Stage::Full(innermost);
            }
            return Stage::Waiting;
        }
        match self.values.get(0) {
            Some(Argument::Value(v)) => Stage::Whole(*v),
            _ => Stage::Waiting,
        }
    }

    /// Puts the block of the innermost compound, which has all its arguments: its value takes their place.
    pub(crate) fn close(&mut self, heap: &mut Heap, full: Open) -> Result<(), AllocError>
        requires unfinished { IsUnfinished heap.old self.old }
        requires full { IsFull self.old full }
        ensures ok { OnOk result (Closes heap.old heap.new self.old self.new) }
        ensures keeps { Keeps heap.old heap.new }
    {
        let around = self.compounds.len() - 1;
        let p = heap.put_block(full.functor, &self.values[full.first..])?;
        self.compounds.truncate(around);
        self.values.truncate(full.first);
        self.values.push(Argument::Value(Cell::Str(p)))?;
        Ok(())
    }

    /// Puts the next node: a compound waits for its arguments, and any other is a value.
    pub(crate) fn add(&mut self, heap: &mut Heap, node: Node) -> Result<(), AllocError>
        requires unfinished { IsUnfinished heap.old self.old }
        requires waiting { length self.old.values.items < end_from 1 self.old.compounds.items }
        requires fits { Fits node }
        requires seen { IsNumbered (length self.old.variables.items) node }
        requires fresh { (n : ℕ) → self.old.number + length self.old.variables.items ≤ n → IsFresh heap.old n }
        ensures ok { OnOk result (Adds heap.old heap.new node self.old self.new) }
        ensures keeps { Keeps heap.old heap.new }
    {
        // The heap's names are a table.
        let _ = heap.boundary();
        match node {
            Node::Var(x) => {
                let v = variable_value(heap, &mut self.variables, self.number, x)?;
                self.values.push(Argument::Value(v))?;
            }
            Node::Int(number) => {
                let v = heap.integer(number)?;
                self.values.push(Argument::Value(v))?;
            }
            Node::Atom(name) => {
                let a = heap.atom(&name)?;
                self.values.push(Argument::Value(Cell::Atom(a)))?;
            }
            Node::Compound(name, count) => {
                let functor = heap.functor_named(&name, count)?;
                let first = self.values.len();
                let end = first + count as usize;
                self.compounds.push(Open {
                    functor,
                    first,
                    end,
                })?;
            }
        }
        Ok(())
    }
}
