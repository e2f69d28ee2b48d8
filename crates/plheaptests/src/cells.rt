//! The cells of a heap: its marks, bindings, blocks and integers.
ghost use Rattle.std.specs.Prelude.{◌≡◌, IfOk};
ghost use Rattle.plterm.specs.Reading.{IsName};
ghost use Rattle.plcells.specs.declared.cell.Cell.TheVariants.{Ref as RefCell, Str as StrCell};
ghost use Rattle.plcells.specs.Store.{IsFresh, IsValue};

use crate::made::{name, show};
use platoms::names::Names;
use plcells::cell::{Argument, Cell};
use plcells::heap::Heap;
use plcells::id::CellId;
use plcells::take::push_run;
use plterm::name::Name;
use std::alloc::{AllocError, Global};
use std::fmt::Write;
use std::string::String;
use std::test::Fail;

/// How many cells there are with a variable behind a mark, and how many there are, and how many are old, once it is cut off.
fn cut_off(heap: &mut Heap, told: &mut String) -> Result<(), Fail>
    requires { IsFresh heap.old 7 }
{
    let mark = heap.mark();
    let _variable = heap.variable(7)?;
    heap.note_closed()?;
    let more = heap.len();
    heap.cut_back(mark, 0);
    let (count, old) = (heap.len(), heap.boundary());
    write!(told, "{more} {count} {old}")?;
    Ok(())
}

/// How many cells there are with a variable behind a mark, and how many once the heap is as it was at the mark.
fn undone(heap: &mut Heap, told: &mut String) -> Result<(), Fail>
    requires { IsFresh heap.old 7 }
{
    let mark = heap.mark();
    let _variable = heap.variable(7)?;
    let more = heap.len();
    heap.undo(mark);
    let count = heap.len();
    write!(told, "{more} {count}")?;
    Ok(())
}

/// How many cells of one are old: with a mark, once its choice is given up, with another mark, and once that is forgotten.
fn old_cells(heap: &mut Heap, told: &mut String) -> Result<(), Fail>
    requires { IsFresh heap.old 7 }
{
    let _variable = heap.variable(7)?;
    let _mark = heap.mark();
    let marked = heap.boundary();
    heap.commit(0, 0);
    let committed = heap.boundary();
    let _again = heap.mark();
    let again = heap.boundary();
    heap.forget(0);
    let forgotten = heap.boundary();
    write!(told, "{marked} {committed} {again} {forgotten}")?;
    Ok(())
}

/// What a new variable stands for once it is bound to 5.
fn bound(alloc: Global, heap: &mut Heap, told: &mut String) -> Result<(), Fail>
    requires { IsFresh heap.old 7 }
{
    let x = heap.variable(7)?;
    let _old = heap.boundary();
    heap.bind(x, Cell::Int(5))?;
    show(alloc, heap, Cell::Ref(x), told)
}

/// A new block of a name and the numbers 1 and 2.
fn pair(heap: &mut Heap, name: &Name) -> Result<CellId, AllocError>
    requires { IsName name.now }
    ensures { IfOk result (λ p. IsValue heap.new (StrCell p)) }
{
    let f = heap.functor_named(name, 2)?;
    let values = [Argument::Value(Cell::Int(1)), Argument::Value(Cell::Int(2))];
    heap.put_block(f, &values)
}

/// A new compound of a name and the values 1 and 2.
fn compound(heap: &mut Heap, name: &Name) -> Result<Cell, AllocError>
    requires { IsName name.now }
    ensures { IfOk result (λ v. IsValue heap.new v) }
{
    let f = heap.functor_named(name, 2)?;
    heap.compound(f, &[Cell::Int(1), Cell::Int(2)])
}

/// The text of a new block of the name f.
fn show_pair(alloc: Global, heap: &mut Heap, told: &mut String) -> Result<(), Fail> {
    let name = name(alloc, "f")?;
    let p = pair(heap, &name)?;
    show(alloc, heap, Cell::Str(p), told)
}

/// The text of a new compound of the name g.
fn show_compound(alloc: Global, heap: &mut Heap, told: &mut String) -> Result<(), Fail> {
    let name = name(alloc, "g")?;
    let v = compound(heap, &name)?;
    show(alloc, heap, v, told)
}

/// A new block, and a new compound.
fn blocks(alloc: Global, heap: &mut Heap, told: &mut String) -> Result<(), Fail> {
    show_pair(alloc, heap, told)?;
    told.push_str(" ")?;
    show_compound(alloc, heap, told)
}

/// The integer that a value is, if it is one.
fn integer(heap: &Heap, v: &Cell, told: &mut String) -> Result<(), Fail>
    requires { IsValue heap.now v.now }
{
    let root = heap.root(*v);
    match root {
        Cell::Int(_) | Cell::Wide(_) => write!(told, "{} ", heap.integer_of(root))?,
        _ => told.push_str("none ")?,
    }
    Ok(())
}

/// The integer that is put for a number.
fn integer_put(heap: &mut Heap, number: i64, told: &mut String) -> Result<(), Fail> {
    let v = heap.integer(number)?;
    integer(heap, &v, told)
}

/// Numbers at the bounds of what a cell holds, and of what an integer can be.
const NUMBERS: [i64; 6] = [
    -1,
    2147483647,
    2147483648,
    -2147483649,
    9223372036854775807,
    -9223372036854775808,
];

/// The integers that are put for numbers.
fn integers(heap: &mut Heap, told: &mut String) -> Result<(), Fail> {
    for number in NUMBERS.iter() {
        integer_put(heap, *number, told)?;
    }
    Ok(())
}

/// Puts a run of three cells on the cell 9.
fn put_run(stack: &mut Vec<CellId>) -> Result<(), AllocError> {
    stack.push(CellId::at(9))?;
    push_run(stack, CellId::at(1).after(3), 3)
}

/// The places of some cells, from the last one on.
fn show_places(cells: &[CellId], told: &mut String) -> Result<(), Fail> {
    for c in cells.iter().rev() {
        let place = c.place();
        write!(told, "{place} ")?;
    }
    Ok(())
}

/// The numbers of the cells of a stack, the topmost first, once a run of three cells was put on the cell 9.
fn run(alloc: Global, told: &mut String) -> Result<(), Fail> {
    let mut stack = Vec::new(alloc);
    put_run(&mut stack)?;
    show_places(&stack, told)
}

/// What is done with the cells of a heap.
#[derive(Clone, Copy)]
enum Call {
    CutOff,
    Undone,
    Old,
    Bound,
    Blocks,
    Integers,
    /// A run of cells is put on a stack.
    Run,
}

/// Tells what a call makes of a heap with nothing on it.
fn tell(alloc: Global, heap: &mut Heap, by: Call, told: &mut String) -> Result<(), Fail>
    requires { IsFresh heap.old 7 }
{
    match by {
        Call::CutOff => cut_off(heap, told),
        Call::Undone => undone(heap, told),
        Call::Old => old_cells(heap, told),
        Call::Bound => bound(alloc, heap, told),
        Call::Blocks => blocks(alloc, heap, told),
        Call::Integers => integers(heap, told),
        Call::Run => run(alloc, told),
    }
}

/// Tells what a call makes of a heap of its own.
fn tell_new(alloc: Global, by: Call, told: &mut String) -> Result<(), Fail> {
    let mut heap = Heap::new(alloc, Names::new(alloc));
    tell(alloc, &mut heap, by, told)
}

const CALLS: [Call; 7] = [
    Call::CutOff,
    Call::Undone,
    Call::Old,
    Call::Bound,
    Call::Blocks,
    Call::Integers,
    Call::Run,
];

/// What the calls tell, one after the other.
const TOLD: &str =
    "1 0 0, 1 0, 1 0 1 0, 5, f(1,2) g(1,2), -1 2147483647 2147483648 -2147483649 9223372036854775807 -9223372036854775808 , 4 5 6 9 , ";

/// Tells what the calls make of heaps of their own.
fn tell_all(alloc: Global, told: &mut String) -> Result<(), Fail> {
    for by in CALLS.iter() {
        tell_new(alloc, *by, told)?;
        told.push_str(", ")?;
    }
    Ok(())
}

#[test]
fn calls_of_cells(rt: HostRuntime) -> Result<(), Fail> {
    let mut told = String::new(rt.alloc());
    tell_all(rt.alloc(), &mut told)?;
    assert_eq!(rt; told.as_str(), TOLD);
    Ok(())
}
