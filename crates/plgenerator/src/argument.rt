//! The terms of arguments.
ghost use Rattle.std.specs.Prelude.{◌≡◌, ◌≤◌, ℕ, pos, List, length, IfOk, IfSome, IfNone};
ghost use Rattle.plterm.specs.Tree.{int, atom};
ghost use Rattle.plterm.specs.Reading.{IsName};
ghost use Rattle.plcells.specs.Store.{value, IsValue};
ghost use Rattle.plbuiltin.specs.Pieces.{text_of};

use itoa::Buffer;
use plcells::cell::Cell;
use plcells::heap::Heap;
use plorder::shape::{Shape, shape_of};
use plterm::name::Name;
use std::alloc::{AllocError, Global};

/// The number of characters that the term of a value is, if it is one.
pub(crate) fn count_in(heap: &Heap, v: Cell) -> Option<u64>
    requires { IsValue heap.now v }
    ensures { IfSome result (λ n. value heap.now v ≡ int (pos n)) }
{
    match shape_of(heap, &v) {
        Shape::Integer(i) if i >= 0 => Some(i as u64),
        _ => None,
    }
}

/// The name of the atom that the term of a value is, if it is one.
pub(crate) fn atom_in(heap: &Heap, v: Cell) -> Option<&Name>
    requires { IsValue heap.now v }
    ensures some { IfSome result (λ name. value heap.now v ≡ atom name.now) }
    ensures name { IfSome result (λ name. IsName name.now) }
    ensures none { IfNone result ((s : List ℕ) → value heap.now v ≡ atom s → ⊥) }
{
    match shape_of(heap, &v) {
        Shape::Atom(a) => Some(heap.names().atom_name(a)),
        _ => None,
    }
}

/// The same, as a name of its own.
pub(crate) fn atom_copied(heap: &Heap, v: Cell) -> Result<Option<Name>, AllocError>
    requires { IsValue heap.now v }
    ensures { IfOk result (λ o. IfSome o (λ name. value heap.now v ≡ atom name)) }
{
    match atom_in(heap, v) {
        Some(name) => Ok(Some(name.copied()?)),
        None => Ok(None),
    }
}

/// The text of the atomic term of a value, which has at most 65,535 bytes.
pub fn text_of(alloc: Global, heap: &Heap, v: Cell) -> Result<Option<Name>, AllocError>
    requires { IsValue heap.now v }
    ensures is { IfOk result (λ text. text ≡ text_of (value heap.now v)) }
    ensures name { IfOk result (λ text. IfSome text IsName) }
    ensures short { IfOk result (λ text. IfSome text (λ name. length name ≤ 65535)) }
{
    match shape_of(heap, &v) {
        Shape::Atom(a) => Ok(Some(heap.names().atom_name(a).copied()?)),
        Shape::Integer(i) => {
            let mut buffer = Buffer::new();
            Ok(Some(Name::new(alloc, buffer.format(i))?))
        }
        _ => Ok(None),
    }
}
