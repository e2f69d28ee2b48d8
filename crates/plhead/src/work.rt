//! The list of equations that are left.
ghost use Rattle.std.specs.Prelude.{◌≡◌, ℕ, ◌+◌, ◌^◌, ◌<◌, ◌≤◌, length, OnOk};
ghost use Rattle.plcells.specs.Store.{at as cell_at, IsHead};
ghost use Rattle.plhead.specs.Equations.{Pushes};

use plcells::cell::Cell;
use plcells::heap::Heap;
use plcells::id::CellId;
use std::alloc::AllocError;

/// Puts so many nodes from a place on beside the terms of as many cells on the list, the first on top.
#[inline(always)]
pub(crate) fn push_arguments(
    work: &mut Vec<(u32, Cell)>,
    heap: &Heap,
    at: u32,
    cells: CellId,
    count: u16,
) -> Result<(), AllocError>
    requires few { at + count < 2 ^ 32 }
    requires room { cells + count < 2 ^ 32 }
    requires within { cells + count ≤ length heap.now.cells }
    requires plain { (d : ℕ) → cells ≤ d → d < cells + count → IsHead (cell_at heap.now.cells d) → ⊥ }
    ensures { OnOk result (Pushes heap.now work.old.items work.new.items at cells count) }
{
    let mut i = u32::from(count);
    while i > 0 {
        i -= 1;
        work.push((at + i, heap.argument(cells.after(i))))?;
    }
    Ok(())
}
