//! The order of two values, with a list of arguments that are left.
ghost use Rattle.std.specs.Prelude.{◌≡◌, ◌+◌, ◌^◌, ◌<◌, ◌++◌, [], length, IfOk, OnOk};
ghost use Rattle.plterm.specs.Tree.{Tree};
ghost use Rattle.plterm.specs.Order.{name_order, functor_order, order};
ghost use Rattle.platoms.specs.Names.{atom_at, functor_name, functor_arity, IsTable};
ghost use Rattle.plcells.specs.Store.{term, value, IsValue, IsBlock};
ghost use Rattle.plorder.specs.Shapes.{IsOfShape, pair_of};
ghost use Rattle.plorder.specs.Runs.{rest_of, runs_order, AreSpanPairs, HoldsNothing, IsComparison};

use crate::shape::{Block, Shape, shape_of};
use platoms::names::Names;
use plcells::cell::Cell;
use plcells::heap::Heap;
use plcells::id::CellId;
use std::alloc::{AllocError, Global};
use std::cmp::Ordering;

/// Arguments to be compared from the left: the first cell on either side, and how many there are.
#[derive(Clone, Copy)]
pub struct SpanPair {
    pub left: CellId,
    pub right: CellId,
    pub count: u16,
}

/// Two terms of one class, or the order of their classes.
#[derive(Clone, Copy)]
pub enum Pair {
    Variables(u64, u64),
    Integers(i64, i64),
    Atoms(u32, u32),
    Compounds(Block, Block),
    Apart(Ordering),
}

/// What two terms come to.
#[derive(Clone, Copy)]
pub enum Verdict {
    Decided(Ordering),
    /// The order of these arguments.
    Arguments(SpanPair),
}

/// Two terms by their class.
fn pair_of(a: Shape, b: Shape) -> Pair
    ensures { result ≡ pair_of a b }
{
    match a {
        Shape::Variable(m) => match b {
            Shape::Variable(n) => Pair::Variables(m, n),
            Shape::Integer(_) | Shape::Atom(_) | Shape::Compound(_) => Pair::Apart(Ordering::Less),
        },
        Shape::Integer(i) => match b {
            Shape::Variable(_) => Pair::Apart(Ordering::Greater),
            Shape::Integer(j) => Pair::Integers(i, j),
            Shape::Atom(_) | Shape::Compound(_) => Pair::Apart(Ordering::Less),
        },
        Shape::Atom(f) => match b {
            Shape::Variable(_) | Shape::Integer(_) => Pair::Apart(Ordering::Greater),
            Shape::Atom(g) => Pair::Atoms(f, g),
            Shape::Compound(_) => Pair::Apart(Ordering::Less),
        },
        Shape::Compound(p) => match b {
            Shape::Variable(_) | Shape::Integer(_) | Shape::Atom(_) => {
                Pair::Apart(Ordering::Greater)
            }
            Shape::Compound(q) => Pair::Compounds(p, q),
        },
    }
}

/// The order of two names. Those of one number are the same.
fn compare_names(names: &Names, a: u32, b: u32) -> Ordering
    requires left { a < length names.now.atoms }
    requires right { b < length names.now.atoms }
    ensures { result ≡ name_order (atom_at names.now a) (atom_at names.now b) }
{
    if a == b {
        return Ordering::Equal;
    }
    names.atom_name(a).compare(names.atom_name(b))
}

/// The order of two functors. Those of one number are the same.
fn compare_functors(names: &Names, f: u32, g: u32) -> Ordering
    requires left { f < length names.now.functors }
    requires right { g < length names.now.functors }
    ensures { result ≡ functor_order (functor_name names.now f) (functor_arity names.now f) (functor_name names.now g) (functor_arity names.now g) }
{
    if f == g {
        return Ordering::Equal;
    }
    let a = names.functor_of(f);
    let b = names.functor_of(g);
    match a.arity.cmp(&b.arity) {
        Ordering::Equal => compare_names(names, a.name, b.name),
        decided => decided,
    }
}

/// Two compounds come to the order of their functors, or else to that of their arguments.
fn judge_blocks(heap: &Heap, a: Block, b: Block) -> Verdict
    requires names { IsTable heap.now.names }
    requires left { IsBlock heap.now a.place a.functor a.arity }
    requires right { IsBlock heap.now b.place b.functor b.arity }
    ensures { IsComparison heap.now (term heap.now a.place) (term heap.now b.place) result }
{
    if a.place == b.place {
        return Verdict::Decided(Ordering::Equal);
    }
    match compare_functors(heap.names(), a.functor, b.functor) {
        Ordering::Equal => Verdict::Arguments(SpanPair {
            left: a.place.arg(1),
            right: b.place.arg(1),
            count: a.arity,
        }),
        decided => Verdict::Decided(decided),
    }
}

/// What two values come to.
fn judge(heap: &Heap, a: Cell, b: Cell) -> Verdict
    requires left { IsValue heap.now a }
    requires right { IsValue heap.now b }
    ensures { IsComparison heap.now (value heap.now a) (value heap.now b) result }
{
    match pair_of(shape_of(heap, &a), shape_of(heap, &b)) {
        Pair::Variables(m, n) => Verdict::Decided(m.cmp(&n)),
        Pair::Integers(i, j) => Verdict::Decided(i.cmp(&j)),
        Pair::Atoms(f, g) => Verdict::Decided(compare_names(heap.names(), f, g)),
        Pair::Compounds(p, q) => judge_blocks(heap, p, q),
        Pair::Apart(decided) => Verdict::Decided(decided),
    }
}

/// Puts a run on the list without its first pair, if there is another.
fn push_rest(work: &mut Vec<SpanPair>, run: &SpanPair) -> Result<(), AllocError>
    requires left { run.now.left + run.now.count < 2 ^ 32 }
    requires right { run.now.right + run.now.count < 2 ^ 32 }
    ensures { OnOk result (work.new.items ≡ work.old.items ++ rest_of run.now) }
{
    if run.count > 1 {
        work.push(SpanPair {
            left: run.left.after(1),
            right: run.right.after(1),
            count: run.count - 1,
        })?;
    }
    Ok(())
}

/// Takes runs apart, up to the first arguments that differ.
fn settle(heap: &Heap, work: &mut Vec<SpanPair>) -> Result<Ordering, AllocError>
    requires { AreSpanPairs heap.now work.old.items }
    ensures { IfOk result (λ o. o ≡ runs_order heap.now work.old.items) }
{
    'runs: while let Some(next) = work.pop() {
        push_rest(work, &next)?;
        match judge(heap, heap.argument(next.left), heap.argument(next.right)) {
            Verdict::Decided(decided) => if decided.is_ne() {
                return Ok(decided);
            },
            Verdict::Arguments(inner) => work.push(inner)?,
        }
    }
    Ok(Ordering::Equal)
}

/// Room for the work of a comparison, which keeps its memory between calls.
#[derive(Drop)]
pub struct Room {
    work: Vec<SpanPair>,
}

impl Room {
    /// With nothing in it.
    pub fn new(alloc: Global) -> Room
        ensures { HoldsNothing result }
    {
        Room {
            work: Vec::new(alloc),
        }
    }
}

/// The order of the terms of two values (ISO/IEC 13211-1 7.2). No term is made; an `Err` comes for want of memory alone.
pub fn compare(heap: &Heap, room: &mut Room, a: Cell, b: Cell) -> Result<Ordering, AllocError>
    requires left { IsValue heap.now a }
    requires right { IsValue heap.now b }
    ensures { IfOk result (λ o. o ≡ order (value heap.now a) (value heap.now b)) }
{
    match judge(heap, a, b) {
        Verdict::Decided(decided) => Ok(decided),
        Verdict::Arguments(inner) => {
            room.work.clear();
            room.work.push(inner)?;
            settle(heap, &mut room.work)
        }
    }
}
