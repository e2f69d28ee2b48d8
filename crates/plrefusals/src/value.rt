//! The procedure that the term of a value calls, and the integer that it is.
ghost use Rattle.std.specs.Prelude.{◌≡◌, IfNone, IfOk, IfSome};
ghost use Rattle.plterm.specs.Tree.{int};
ghost use Rattle.plcells.specs.Store.{value, IsValue};
ghost use Rattle.plclause.specs.Indicators.{indicator};
ghost use Rattle.plrefusals.specs.Values.{IsNoInteger};

use plcells::cell::Cell;
use plcells::heap::Heap;
use plterm::indicator::Indicator;
use plterm::name::Name;
use std::alloc::{AllocError, Global};

/// The indicator of the term of a value.
pub fn indicator_of(alloc: Global, heap: &Heap, v: &Cell) -> Result<Indicator, AllocError>
    requires { IsValue heap.now v.now }
    ensures { IfOk result (λ p. p ≡ indicator (value heap.now v.now)) }
{
    match heap.root(*v) {
        Cell::Atom(atom) => {
            let name = heap.names().atom_name(atom).copied()?;
            Ok(Indicator { name, arity: 0 })
        }
        Cell::Str(p) => {
            let (f, arity) = heap.block(p);
            let functor = heap.names().functor_of(f);
            let name = heap.names().atom_name(functor.name).copied()?;
            Ok(Indicator { name, arity })
        }
        _ => {
            let name = Name::new(alloc, "")?;
            Ok(Indicator { name, arity: 0 })
        }
    }
}

/// The integer that the term of a value is, if it is one.
pub fn integer_in(heap: &Heap, v: &Cell) -> Option<i64>
    requires { IsValue heap.now v.now }
    ensures some { IfSome result (λ i. value heap.now v.now ≡ int i) }
    ensures none { IfNone result (IsNoInteger (value heap.now v.now)) }
{
    let root = heap.root(*v);
    match root {
        Cell::Int(_) | Cell::Wide(_) => Some(heap.integer_of(root)),
        _ => None,
    }
}
