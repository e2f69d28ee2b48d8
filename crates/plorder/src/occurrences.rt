//! The variables of a value, in the order in which they occur.
ghost use Rattle.std.specs.Prelude.{◌≡◌, map, IfOk, OnOk};
ghost use Rattle.plterm.specs.Tree.{var};
ghost use Rattle.plterm.specs.Variables.{added, variables};
ghost use Rattle.plcells.specs.Store.{value, IsValue, AreValues};
ghost use Rattle.plorder.specs.Occurrences.{HasNone, IsFound, Visits};

use crate::shape::{Shape, shape_of};
use crate::variables::{Span, push_rest};
use plcells::cell::Cell;
use plcells::heap::Heap;
use plterm::numbers::Numbers;
use std::alloc::{AllocError, Global};

/// The variables that were found, each once: their numbers, and values of them.
#[derive(Drop)]
pub struct Found {
    pub numbers: Numbers,
    pub cells: Vec<Cell>,
}

impl Found {
    /// None as yet.
    fn new(alloc: Global) -> Found
        ensures { HasNone result }
    {
        Found {
            numbers: Numbers::new(alloc),
            cells: Vec::new(alloc),
        }
    }
}

/// Notes a variable, if it is new.
fn note(heap: &Heap, found: &mut Found, number: u64, v: Cell) -> Result<(), AllocError>
    requires fits { IsValue heap.now v }
    requires variable { value heap.now v ≡ var number }
    requires found { IsFound heap.now found.old }
    ensures numbers { OnOk result (found.new.numbers ≡ added found.old.numbers number) }
    ensures found { OnOk result (IsFound heap.now found.new) }
{
    let count = found.numbers.count();
    if found.numbers.place_of(number)? == count {
        found.cells.push(v)?;
    }
    Ok(())
}

/// Notes a variable, and puts the arguments of a compound on the list.
fn visit(heap: &Heap, work: &mut Vec<Span>, found: &mut Found, v: Cell) -> Result<(), AllocError>
    requires fits { IsValue heap.now v }
    requires found { IsFound heap.now found.old }
    ensures visits { OnOk result (Visits heap.now work.old.items work.new.items found.old.numbers found.new.numbers (value heap.now v)) }
    ensures found { OnOk result (IsFound heap.now found.new) }
{
    match shape_of(heap, &v) {
        Shape::Variable(number) => note(heap, found, number, heap.root(v))?,
        Shape::Compound(block) => work.push(Span {
            first: block.place.arg(1),
            count: block.arity,
        })?,
        _ => {}
    }
    Ok(())
}

/// The variables of the term of a value, each once, in the order of their first occurrence. An `Err` comes for want of memory alone.
pub fn variables_of(alloc: Global, heap: &Heap, v: Cell) -> Result<Vec<Cell>, AllocError>
    requires { IsValue heap.now v }
    ensures values { IfOk result (λ found. AreValues heap.now found.items) }
    ensures is { IfOk result (λ found. map (value heap.now) found.items ≡ map var (variables (value heap.now v))) }
{
    let mut found = Found::new(alloc);
    let mut work = Vec::new(alloc);
    visit(heap, &mut work, &mut found, v)?;
    'spans: while let Some(span) = work.pop() {
        push_rest(&mut work, &span)?;
        visit(heap, &mut work, &mut found, heap.argument(span.first))?;
    }
    let Found { numbers: _, cells } = found;
    Ok(cells)
}
