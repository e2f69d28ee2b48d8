//! What holds of marks and of the changes that keep them.
ghost use Rattle.std.specs.Prelude.{◌≡◌};
ghost use Rattle.platoms.specs.Names.{IsTable};
ghost use Rattle.plenv.specs.declared.slot.Mark.{Mark};
ghost use Rattle.plenv.specs.Changes.{Keeps};
ghost use Rattle.plenv.specs.Env.{Env, cut, IsMark};
ghost use Rattle.plenv.specs.Marks.{IsOlder};

/// Changes that keep the marks in use compose, and no change is one of them.
pub fn keeps_law()
    ensures none { (e : Env) → Keeps e e }
    ensures both { (a b c : Env) → Keeps a b → Keeps b c → Keeps a c }
{}

/// An older mark stays one after an undo to a newer one, and the environment at it stays as it is.
pub fn older_mark_law()
    ensures mark { (m n : Mark) (e : Env) → IsMark m e → IsMark n e → IsOlder m n → IsMark m (cut n e) }
    ensures environment { (m n : Mark) (e : Env) → IsOlder m n → cut m (cut n e) ≡ cut m e }
{}

/// A mark stays one after changes that keep it.
pub fn kept_mark_law()
    ensures { (m : Mark) (old new : Env) → Keeps old new → IsTable new.heap.names → IsMark m old → IsMark m new }
{}
