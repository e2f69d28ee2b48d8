//! What holds of marks and of the changes that keep them.
ghost use Rattle.std.specs.Prelude.{◌≡◌};
ghost use Rattle.platoms.specs.Names.{IsTable};
ghost use Rattle.plcells.specs.declared.cell.Mark.{Mark};
ghost use Rattle.plcells.specs.Store.{Store, cut, IsKept, IsMark, Keeps};
ghost use Rattle.plcells.specs.Marks.{IsOlder};

/// Changes that keep the marks in use compose, and no change is one of them.
pub fn keeps_law()
    ensures none { (h : Store) → Keeps h h }
    ensures both { (a b c : Store) → Keeps a b → Keeps b c → Keeps a c }
{}

/// An older mark stays one after an undo to a newer one, and the heap at it stays as it is.
pub fn older_mark_law()
    ensures mark { (m n : Mark) (h : Store) → IsMark m h → IsMark n h → IsOlder m n → IsMark m (cut n h) }
    ensures heap { (m n : Mark) (h : Store) → IsOlder m n → cut m (cut n h) ≡ cut m h }
{}

/// A mark stays one after changes that keep it.
pub fn kept_mark_law()
    ensures { (m : Mark) (h : Store) → IsTable h.names → IsKept m h → IsMark m h }
{}
