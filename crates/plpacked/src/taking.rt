//! Values to packed bytes.
ghost use Rattle.std.specs.Prelude.{◌≡◌, IfOk, OnOk};
ghost use Rattle.plterm.specs.Variables.{copied};
ghost use Rattle.plpack.specs.Packing.{packed, IsPackable};
ghost use Rattle.plcells.specs.Store.{value, IsValue};
ghost use Rattle.plpacked.specs.Taking.{IsWritten};

use plcells::cell::Cell;
use plcells::heap::Heap;
use plcells::id::CellId;
use plcells::take::push_run;
use plpack::packing::{put_atom, put_compound, put_integer, put_variable};
use plpack::shared::Packed;
use plterm::numbers::Numbers;
use std::alloc::{AllocError, Global};

/// Writes the item of a value's node, and puts the cells of its arguments on the stack.
fn write_value(
    heap: &Heap,
    out: &mut Vec<u8>,
    seen: &mut Numbers,
    stack: &mut Vec<CellId>,
    v: Cell,
) -> Result<(), AllocError>
    requires { IsValue heap.now v }
    ensures { OnOk result (IsWritten heap.now out.old.items out.new.items seen.old seen.new stack.old.items stack.new.items (value heap.now v)) }
{
    match heap.root(v) {
        Cell::Ref(c) => put_variable(out, seen, heap.number(c))?,
        Cell::Atom(a) => put_atom(out, heap.names().atom_name(a).as_str())?,
        Cell::Str(p) => {
            let (f, count) = heap.block(p);
            let functor = heap.names().functor_of(f);
            put_compound(out, heap.names().atom_name(functor.name).as_str(), count)?;
            push_run(stack, p.arg(1), count)?;
        }
        number => put_integer(out, heap.integer_of(number))?,
    }
    Ok(())
}

/// The bytes of the term of a value.
fn bytes_of(alloc: Global, heap: &Heap, v: Cell) -> Result<Vec<u8>, AllocError>
    requires { IsValue heap.now v }
    ensures bytes { IfOk result (λ bytes. bytes.items ≡ packed (value heap.now v)) }
    ensures limits { OnOk result (IsPackable (value heap.now v)) }
{
    let mut out = Vec::new(alloc);
    let mut seen = Numbers::new(alloc);
    let mut stack = Vec::new(alloc);
    write_value(heap, &mut out, &mut seen, &mut stack, v)?;
    while let Some(c) = stack.pop() {
        write_value(heap, &mut out, &mut seen, &mut stack, heap.argument(c))?;
    }
    Ok(out)
}

/// A copy of the term of a value, in time linear in its nodes. Parts that are shared on the heap are written out each time.
pub fn take_packed(alloc: Global, heap: &Heap, v: Cell) -> Result<Packed, AllocError>
    requires { IsValue heap.now v }
    ensures { IfOk result (λ p. p ≡ copied 0 (value heap.now v)) }
{
    Packed::of_bytes(bytes_of(alloc, heap, v)?)
}
