//! What clauses are looked up by: the head of a walk's goal, and the key of its first argument.
ghost use Rattle.std.specs.Prelude.{◌≡◌, IfNone, IfOk, IfSome};
ghost use Rattle.plcells.specs.Store.{value, IsValue};
ghost use Rattle.plevent.specs.Keys.{first_key as first_of, key_of as key_by};
ghost use Rattle.plstack.specs.Places.{head_in, head_told};
ghost use Rattle.plmachine.specs.Sought.{HasFirst, HasNone};

use plcells::cell::Cell;
use plcells::heap::Heap;
use plevent::Key;
use plstack::frame::Use;
use std::alloc::AllocError;

/// The first argument of the term of a value, if it has one.
fn first_argument(heap: &Heap, v: &Cell) -> Option<Cell>
    requires { IsValue heap.now v.now }
    ensures some { IfSome result (HasFirst heap.now v.now) }
    ensures none { IfNone result (HasNone (value heap.now v.now)) }
{
    let Cell::Str(p) = heap.root(*v) else {
        return None;
    };
    let (_, arity) = heap.block(p);
    if arity == 0 {
        return None;
    }
    Some(heap.argument(p.arg(1)))
}

/// The head of the clauses that a goal's term asks for.
fn told_head(heap: &Heap, goal: Cell) -> Cell
    requires { IsValue heap.now goal }
    ensures there { IsValue heap.now result }
    ensures is { value heap.now result ≡ head_told (value heap.now goal) }
{
    match first_argument(heap, &goal) {
        Some(head) => head,
        None => goal,
    }
}

/// The head for which clauses are looked up.
pub fn head_of(heap: &Heap, uses: Use, goal: Cell) -> Cell
    requires { IsValue heap.now goal }
    ensures there { IsValue heap.now result }
    ensures is { value heap.now result ≡ head_in uses (value heap.now goal) }
{
    match uses {
        Use::Call => goal,
        Use::Tell | Use::Erase => told_head(heap, goal),
    }
}

/// The key of the term of a value.
fn key_of(heap: &Heap, v: Cell) -> Result<Key, AllocError>
    requires { IsValue heap.now v }
    ensures { IfOk result (λ k. k ≡ key_by (value heap.now v)) }
{
    let root = heap.root(v);
    match root {
        Cell::Int(_) | Cell::Wide(_) => Ok(Key::Int(heap.integer_of(root))),
        Cell::Atom(atom) => {
            let name = heap.names().atom_name(atom).copied()?;
            Ok(Key::Atom(name))
        }
        Cell::Str(p) => {
            let (f, arity) = heap.block(p);
            let functor = heap.names().functor_of(f);
            let name = heap.names().atom_name(functor.name).copied()?;
            Ok(Key::Functor(name, arity))
        }
        _ => Ok(Key::Any),
    }
}

/// The key of the first argument of a head.
pub fn first_key(heap: &Heap, head: &Cell) -> Result<Key, AllocError>
    requires { IsValue heap.now head.now }
    ensures { IfOk result (λ k. k ≡ first_of (value heap.now head.now)) }
{
    match first_argument(heap, head) {
        Some(v) => key_of(heap, v),
        None => Ok(Key::Any),
    }
}
