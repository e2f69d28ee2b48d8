//! The occurs check.

ghost use Rattle.std.specs.Prelude.{◌≡◌, ℕ, ◌+◌, ◌<◌, ◌≤◌, ◌||◌, true, false, length, IfOk, OnOk};
ghost use Rattle.plterm.specs.Tree.{var};
ghost use Rattle.plsubst.specs.Subst.{occurs};
ghost use Rattle.plcells.specs.declared.cell.Cell.TheVariants.{Ref as RefCell};
ghost use Rattle.plcells.specs.Store.{at, term, value, IsHeap, IsHead, IsValue, IsEnd};
ghost use Rattle.plcells.specs.Walking.{weight, weigh, occurs_any, AreBlocks, IsFloor};

use crate::cell::Cell;
use crate::heap::Heap;
use crate::id::CellId;
use std::alloc::AllocError;

impl Heap {
    /// Looks at the arguments of a block for the variable of the cell `x`, and puts those blocks on the stack in which it may still stand: none below `floor`.
    #[inline(always)]
    fn look(
        &self,
        stack: &mut Vec<CellId>,
        x: CellId,
        floor: CellId,
        p: CellId,
    ) -> Result<bool, AllocError>
        requires variable { IsEnd self.now (RefCell x) }
        requires floor { IsFloor self.now x floor }
        requires within { p < length self.now.cells }
        requires head { IsHead (at self.now.cells p) }
        requires blocks { AreBlocks self.now stack.old.items }
        ensures found { IfOk result (λ r. r ≡ true → (n : ℕ) → term self.now x ≡ var n → occurs n (term self.now p) ≡ true) }
        ensures left { IfOk result (λ r. r ≡ false → (n : ℕ) → term self.now x ≡ var n → occurs_any n self.now stack.new.items ≡ (occurs_any n self.now stack.old.items || occurs n (term self.now p))) }
        ensures blocks { OnOk result (AreBlocks self.now stack.new.items) }
        ensures lighter { IfOk result (λ r. r ≡ false → weigh self.now stack.new.items < weigh self.now stack.old.items + weight (term self.now p)) }
    {
        let Some(count) = self.open_arity(p) else {
            return Ok(false);
        };
        for j in 0..count {
            match self.root(self.argument(p.arg(1 + u32::from(j)))) {
                Cell::Ref(c) => if c == x {
                    return Ok(true);
                },
                Cell::Str(q) => if q >= floor {
                    stack.push(q)?;
                },
                _ => {}
            }
        }
        Ok(false)
    }

    /// Whether the variable of the cell `x` stands in the compound whose block begins at a cell.
    #[inline(always)]
    fn occurs_below(
        &self,
        stack: &mut Vec<CellId>,
        x: CellId,
        p: CellId,
    ) -> Result<bool, AllocError>
        requires variable { IsEnd self.now (RefCell x) }
        requires within { p < length self.now.cells }
        requires head { IsHead (at self.now.cells p) }
        ensures { IfOk result (λ r. (n : ℕ) → term self.now x ≡ var n → r ≡ occurs n (term self.now p)) }
    {
        if self.is_lone(x) {
            return Ok(false);
        }
        let floor = self.floor(x);
        if p < floor {
            return Ok(false);
        }
        stack.clear();
        let here = self.look(stack, x, floor, p)?;
        if here {
            return Ok(true);
        }
        while let Some(q) = stack.pop() {
            if self.look(stack, x, floor, q)? {
                return Ok(true);
            }
        }
        Ok(false)
    }

    /// Whether the variable of the cell `x` stands in the term of a value. What is known not to hold it is not walked.
    #[inline(always)]
    pub fn occurs(&self, stack: &mut Vec<CellId>, x: CellId, v: &Cell) -> Result<bool, AllocError>
        requires variable { IsEnd self.now (RefCell x) }
        requires fits { IsValue self.now v.now }
        ensures is { IfOk result (λ r. (n : ℕ) → term self.now x ≡ var n → r ≡ occurs n (value self.now v.now)) }
        ensures heap { OnOk result (IsHeap self.now) }
    {
        match self.root(*v) {
            Cell::Ref(c) => Ok(c == x),
            Cell::Str(p) => self.occurs_below(stack, x, p),
            _ => Ok(false),
        }
    }
}
