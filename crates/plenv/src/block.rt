//! Nodes of compiled clauses as arguments of blocks.
ghost use Rattle.std.specs.Prelude.{◌≡◌, IfOk};
ghost use Rattle.plenv.specs.Blocks.{part_at as part_at_slot, AddsNoCell, AreReady, IsGathered, IsPart, IsReady};

use crate::slot::Slot;
use plcells::cell::{Argument, Cell};
use plcells::heap::Heap;
use plcells::id::CellId;
use plcode::node::Node;
use std::alloc::AllocError;

/// The blocks of a compound: where the first one stands among the nodes and on the heap, and where the slots of its clause begin.
#[derive(Clone, Copy)]
pub(crate) struct BlocksAt {
    pub(crate) from: u32,
    pub(crate) start: CellId,
    pub(crate) base: u32,
}

/// A slot as an argument: a free one is a new variable. What has no slot stands in no term that is asked for.
#[inline(always)]
fn part_at(slots: &[Slot], slot: usize) -> Argument
    ensures { result ≡ part_at_slot slots.now slot }
{
    match slots.get(slot) {
        Some(Slot::Set(v)) => Argument::Value(*v),
        Some(Slot::Free(number)) => Argument::Variable(*number),
        None => Argument::Value(Cell::Int(0)),
    }
}

/// A node as an argument.
#[inline(always)]
fn part(heap: &mut Heap, slots: &[Slot], node: Node, run: &BlocksAt) -> Result<Argument, AllocError>
    requires { IsReady heap.old run.now node }
    ensures ok { IfOk result (λ x. IsPart heap.new slots.now run.now node x) }
    ensures grows { AddsNoCell heap.old heap.new }
{
    match node {
        Node::Var(s) => Ok(part_at(slots, run.base as usize + s as usize)),
        Node::Int(number) => {
            let v = heap.integer(number)?;
            Ok(Argument::Value(v))
        }
        Node::Atom(a) => Ok(Argument::Value(Cell::Atom(a))),
        Node::Sub(_, root) => Ok(Argument::Value(Cell::Str(run.start.after(root - run.from)))),
        Node::Fun(_, _) => unreachable!(),
    }
}

/// What the arguments of a block are, as far as free slots go.
#[derive(Clone, Copy)]
pub(crate) enum Gathered {
    /// Values.
    Whole,
    /// Values, but for one new variable: where it stands among them, and its number.
    One(usize, u64),
    /// Several variables have free slots, or one stands there twice: nothing was gathered.
    Several,
}

/// Gathers the arguments of a block, in the place of those that the list holds.
#[inline(always)]
pub(crate) fn gather(
    heap: &mut Heap,
    block: &mut Vec<Argument>,
    slots: &[Slot],
    row: &[Node],
    run: &BlocksAt,
) -> Result<Gathered, AllocError>
    requires { AreReady heap.old run.now row.now }
    ensures ok { IfOk result (λ g. IsGathered heap.new slots.now run.now row.now block.new.items g) }
    ensures grows { AddsNoCell heap.old heap.new }
{
    block.clear();
    let mut one = None;
    for i in 0..row.len() {
        let x = part(heap, slots, row[i], run)?;
        if let Argument::Variable(number) = x {
            if one.is_some() {
                return Ok(Gathered::Several);
            }
            one = Some((i, number));
        }
        block.push(x)?;
    }
    match one {
        Some((at, number)) => Ok(Gathered::One(at, number)),
        None => Ok(Gathered::Whole),
    }
}
