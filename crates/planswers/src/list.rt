//! The terms of values as lists (ISO/IEC 13211-1 6.3.5).
ghost use Rattle.std.specs.Prelude.{◌≡◌, map, IfOk, IfSome, IfNone};
ghost use Rattle.plcells.specs.Store.{value, IsValue, AreValues};
ghost use Rattle.plbuiltin.specs.Lists.{elements_of as elements_in_term, ends, may_be_list, checked as checked_of, is_variable as is_variable_of, is_partial as is_partial_of};
ghost use Rattle.std.specs.List.{list_any};
ghost use Rattle.planswers.specs.Lists.{tail_as, tail_at, IsCell, AreThere, checked_as};

use crate::error::type_error;
use plcells::cell::Cell;
use plcells::heap::Heap;
use plerror::error::instantiation_error;
use plorder::shape::{Shape, shape_of};
use plterm::term::Term;
use std::alloc::{AllocError, Global};

/// What stands behind the last element.
#[derive(Clone, Copy)]
pub enum Tail {
    /// The empty list.
    Empty,
    /// An unbound variable.
    Unbound,
    /// Another term, so that it is no list.
    Other,
}

/// The elements from the left, as far as they go.
#[derive(Drop)]
pub struct Elements {
    pub items: Vec<Cell>,
    pub tail: Tail,
}

/// The elements of a list, or the error of a term that is none.
#[derive(Drop)]
pub enum Checked {
    Whole(Vec<Cell>),
    Amiss(Term),
}

/// The first element of a list, and what stands behind it.
pub fn cell_of(heap: &Heap, v: &Cell) -> Option<(Cell, Cell)>
    requires { IsValue heap.now v.now }
    ensures some { IfSome result (λ c. IsCell heap.now (value heap.now v.now) c.0 c.1) }
    ensures none { IfNone result (elements_in_term (value heap.now v.now) ≡ ends (tail_at (value heap.now v.now))) }
{
    let Cell::Str(p) = heap.root(*v) else {
        return None;
    };
    let (f, arity) = heap.block(p);
    if arity != 2 {
        return None;
    }
    let functor = heap.names().functor_of(f);
    let name = heap.names().atom_name(functor.name);
    if name.as_str() == "." {
        Some((heap.argument(p.arg(1)), heap.argument(p.arg(2))))
    } else {
        None
    }
}

/// What a term without elements is, as the tail of a list.
pub fn tail_of(heap: &Heap, v: &Cell) -> Tail
    requires { IsValue heap.now v.now }
    ensures { tail_as result ≡ tail_at (value heap.now v.now) }
{
    match shape_of(heap, v) {
        Shape::Variable(_) => Tail::Unbound,
        Shape::Atom(name) if heap.names().atom_name(name).as_str() == "[]" => Tail::Empty,
        _ => Tail::Other,
    }
}

/// What stands behind the elements of a term.
pub fn end_of(heap: &Heap, v: Cell) -> Tail
    requires { IsValue heap.now v }
    ensures { tail_as result ≡ (elements_in_term (value heap.now v)).tail }
{
    let mut rest = v;
    while let Some((_, tail)) = cell_of(heap, &rest) {
        rest = tail;
    }
    tail_of(heap, &rest)
}

/// Whether the term of a value is a list, or may become one as its end is a variable. It takes time linear in the elements.
pub fn may_be_list(heap: &Heap, v: Cell) -> bool
    requires { IsValue heap.now v }
    ensures { result ≡ may_be_list (value heap.now v) }
{
    match end_of(heap, v) {
        Tail::Empty | Tail::Unbound => true,
        Tail::Other => false,
    }
}

/// The elements of a term from the left, and what stands behind them.
pub fn elements_of(alloc: Global, heap: &Heap, v: Cell) -> Result<Elements, AllocError>
    requires { IsValue heap.now v }
    ensures is { IfOk result (λ es. elements_in_term (value heap.now v) ≡ record { items = map (value heap.now) es.items.items; tail = tail_as es.tail }) }
    ensures there { IfOk result (λ es. AreValues heap.now es.items.items) }
{
    let mut items = Vec::new(alloc);
    let mut rest = v;
    while let Some((first, tail)) = cell_of(heap, &rest) {
        items.push(first)?;
        rest = tail;
    }
    let tail = tail_of(heap, &rest);
    Ok(Elements { items, tail })
}

/// The elements of a list, or the error of a term that is none: a variable in its place is looked for first.
pub fn whole_list(alloc: Global, heap: &Heap, v: &Cell) -> Result<Checked, AllocError>
    requires { IsValue heap.now v.now }
    ensures is { IfOk result (λ c. checked_as heap.now c ≡ checked_of (value heap.now v.now)) }
    ensures there { IfOk result (AreThere heap.now) }
{
    let Elements { items, tail } = elements_of(alloc, heap, *v)?;
    match tail {
        Tail::Empty => Ok(Checked::Whole(items)),
        Tail::Unbound => Ok(Checked::Amiss(instantiation_error(alloc)?)),
        Tail::Other => Ok(Checked::Amiss(type_error(alloc, heap, "list", *v)?)),
    }
}

/// Whether a value is an unbound variable.
pub fn is_variable(heap: &Heap, v: &Cell) -> bool
    requires { IsValue heap.now v.now }
    ensures { result ≡ is_variable_of (value heap.now v.now) }
{
    matches!(shape_of(heap, v), Shape::Variable(_))
}

/// Whether the end of a list or one of its elements is an unbound variable.
pub fn is_partial(heap: &Heap, list: &Elements) -> bool
    requires { AreValues heap.now list.now.items.items }
    ensures { result ≡ is_partial_of (record { items = map (value heap.now) list.now.items.items; tail = tail_as list.now.tail }) }
{
    matches!(list.tail, Tail::Unbound) || any_variable(heap, &list.items)
}

/// Whether one of some values is an unbound variable.
fn any_variable(heap: &Heap, items: &[Cell]) -> bool
    requires { AreValues heap.now items.now }
    ensures { result ≡ list_any is_variable_of (map (value heap.now) items.now) }
{
    for v in items {
        if is_variable(heap, v) {
            return true;
        }
    }
    false
}
