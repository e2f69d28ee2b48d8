//! What is looked through in a view.
ghost use Rattle.std.specs.Prelude.{◌≡◌, List};
ghost use Rattle.plterm.specs.declared.indicator.Indicator.{Indicator};
ghost use Rattle.plevent.specs.Alive.{living};
ghost use Rattle.plstore.specs.Like.{rest};
ghost use Rattle.plrecords.specs.Rising.{AllUnder};
ghost use Rattle.plrecords.specs.declared.record.Cursor.{Cursor};
ghost use Rattle.pltx.specs.declared.own.OwnCursor.TheVariants.{Start};
ghost use Rattle.plviews.specs.declared.lookup.Reach.TheVariants.{Front, Base};
ghost use Rattle.plviews.specs.Views.{whole, Sight, WithoutOwn};
ghost use Rattle.plviews.specs.Lookups.{rest_at};

/// From the start they are all the clauses of the procedure that are alive in the view, in their order.
pub fn start_law()
    ensures { (s : Sight) (p : Indicator) → AllUnder s.place s.below → rest_at s p (Front Start) ≡ living (whole s) p }
{}

/// A view without own updates is the journal's.
pub fn journal_law()
    ensures { (s : Sight) → WithoutOwn s → whole s ≡ s.below }
{}

/// And so the clauses behind a cursor are those of the journal.
pub fn journal_rest_law()
    ensures { (s : Sight) (p : Indicator) (c : Cursor) → WithoutOwn s → rest_at s p (Base c) ≡ rest c (living s.below p) }
{}
