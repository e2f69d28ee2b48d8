//! A term's number and arguments, as a goal is called by them.

ghost use Rattle.std.specs.Prelude.{◌≡◌, ℕ, ◌≤◌, length, map, IfOk, IfSome, IfNone, OnOk};
ghost use Rattle.plcells.specs.Store.{value, IsBlock, IsValue, AreValues};
ghost use Rattle.plgoals.specs.Callables.{called, IsCallable, IsNoGoal};
ghost use Rattle.plgoals.specs.Extended.{AreArguments};

use plcells::cell::Cell;
use plcells::heap::Heap;
use plcells::id::CellId;
use plcode::callee::Number;
use std::alloc::AllocError;

/// Makes a list the first arguments of a block, so many as it has.
pub(crate) fn read_arguments(
    heap: &Heap,
    p: CellId,
    count: u16,
    args: &mut Vec<Cell>,
) -> Result<(), AllocError>
    requires { (f : ℕ) × IsBlock heap.now p f count }
    ensures { OnOk result (AreArguments heap.now p count args.new.items) }
{
    args.clear();
    for i in 0..count {
        args.push(heap.argument(p.arg(1 + u32::from(i))))?;
    }
    Ok(())
}

/// The number by which an atom or a compound is called, and a list made its arguments; none for a variable or an integer, and the list is empty.
/// After an `Err` the list may hold some of the arguments.
pub fn arguments_of(
    heap: &Heap,
    v: Cell,
    args: &mut Vec<Cell>,
) -> Result<Option<Number>, AllocError>
    requires { IsValue heap.now v }
    ensures callable { IfOk result (λ found. IfSome found (λ n. IsCallable heap.now.names n (length args.new.items))) }
    ensures is { IfOk result (λ found. IfSome found (λ n. value heap.now v ≡ called heap.now.names n (map (value heap.now) args.new.items))) }
    ensures none { IfOk result (λ found. IfNone found (IsNoGoal (value heap.now v))) }
    ensures values { OnOk result (AreValues heap.now args.new.items) }
    ensures few { OnOk result (length args.new.items ≤ 1024) }
{
    args.clear();
    match heap.root(v) {
        Cell::Atom(a) => Ok(Some(Number::Atom(a))),
        Cell::Str(p) => {
            let (f, count) = heap.block(p);
            read_arguments(heap, p, count, args)?;
            Ok(Some(Number::Functor(f)))
        }
        _ => Ok(None),
    }
}
