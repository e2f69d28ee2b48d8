//! Whether variables stand in a value.
ghost use Rattle.std.specs.Prelude.{◌≡◌, ◌+◌, ◌^◌, ◌<◌, ◌++◌, IfOk, OnOk};
ghost use Rattle.plterm.specs.Ground.{is_ground};
ghost use Rattle.plcells.specs.Store.{value, IsValue};
ghost use Rattle.plorder.specs.Spans.{rest_of, all_ground, AreSpans, Looks};

use crate::shape::{Shape, shape_of};
use plcells::cell::Cell;
use plcells::heap::Heap;
use plcells::id::CellId;
use std::alloc::AllocError;

/// Arguments that are to be looked at: the first cell, and how many there are.
#[derive(Clone, Copy)]
pub struct Span {
    pub first: CellId,
    pub count: u16,
}

/// Puts a span on the list without its first cell, if there is another.
pub(crate) fn push_rest(work: &mut Vec<Span>, span: &Span) -> Result<(), AllocError>
    requires { span.now.first + span.now.count < 2 ^ 32 }
    ensures { OnOk result (work.new.items ≡ work.old.items ++ rest_of span.now) }
{
    if span.count > 1 {
        work.push(Span {
            first: span.first.after(1),
            count: span.count - 1,
        })?;
    }
    Ok(())
}

/// Puts the arguments of a compound on the list. Of a variable the answer is no.
fn look(heap: &Heap, work: &mut Vec<Span>, v: Cell) -> Result<bool, AllocError>
    requires { IsValue heap.now v }
    ensures { IfOk result (λ r. Looks heap.now work.old.items work.new.items (value heap.now v) r) }
{
    match shape_of(heap, &v) {
        Shape::Variable(_) => return Ok(false),
        Shape::Compound(block) => work.push(Span {
            first: block.place.arg(1),
            count: block.arity,
        })?,
        _ => {}
    }
    Ok(true)
}

/// Looks through spans, up to the first variable.
fn look_through(heap: &Heap, work: &mut Vec<Span>) -> Result<bool, AllocError>
    requires { AreSpans heap.now work.old.items }
    ensures { IfOk result (λ r. r ≡ all_ground heap.now work.old.items) }
{
    'spans: while let Some(span) = work.pop() {
        push_rest(work, &span)?;
        if !look(heap, work, heap.argument(span.first))? {
            return Ok(false);
        }
    }
    Ok(true)
}

/// Whether no variable stands in the term of a value. The list is room for the work, whatever it holds.
pub fn is_ground(heap: &Heap, work: &mut Vec<Span>, v: Cell) -> Result<bool, AllocError>
    requires { IsValue heap.now v }
    ensures { IfOk result (λ r. r ≡ is_ground (value heap.now v)) }
{
    work.clear();
    if !look(heap, work, v)? {
        return Ok(false);
    }
    look_through(heap, work)
}
