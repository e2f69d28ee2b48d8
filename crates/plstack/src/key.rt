//! The keys of goals.
ghost use Rattle.std.specs.Prelude.{◌≡◌, map};
ghost use Rattle.plcells.specs.Store.{value, AreValues, IsValue};
ghost use Rattle.plcode.specs.Keys.{IsFirstKey, IsKey};
ghost use Rattle.plstack.specs.Keys.{IsVariable, MayBeAny};

use plcells::cell::Cell;
use plcells::heap::Heap;
use plcode::key::Key;

/// The key of a value's term: that of anything for a variable alone.
#[inline(always)]
fn key_of(heap: &Heap, v: Cell) -> Key
    requires { IsValue heap.now v }
    ensures is { IsKey heap.now.names result (value heap.now v) }
    ensures any { result ≡ Key.Any → IsVariable (value heap.now v) }
{
    let root = heap.root(v);
    match root {
        Cell::Int(_) | Cell::Wide(_) => Key::Int(heap.integer_of(root)),
        Cell::Atom(a) => Key::Atom(a),
        Cell::Str(p) => {
            let (f, _) = heap.block(p);
            Key::Fun(f)
        }
        _ => Key::Any,
    }
}

/// The key of the first of some values; that of anything, if there is none, and for a variable.
#[inline(always)]
pub(crate) fn first_key(heap: &Heap, values: &[Cell]) -> Key
    requires { AreValues heap.now values.now }
    ensures is { IsFirstKey heap.now.names result (map (value heap.now) values.now) }
    ensures any { result ≡ Key.Any → MayBeAny (map (value heap.now) values.now) }
{
    match values {
        [] => Key::Any,
        [first, ..] => key_of(heap, *first),
    }
}
