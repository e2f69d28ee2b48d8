//! What a thread sees of its own updates on top of the journal's.
ghost use Rattle.std.specs.Prelude.{◌≡◌, ℕ, List, ◌++◌, take};
ghost use Rattle.plterm.specs.declared.indicator.Indicator.{Indicator};
ghost use Rattle.plevent.specs.declared.update.Update.{Update};
ghost use Rattle.plevent.specs.Alive.{Stamped, before, living, view};
ghost use Rattle.plrecords.specs.Rising.{AllUnder};
ghost use Rattle.pltx.specs.Walks.{not_erased, own_backs, own_batch, own_fronts};

/// The clauses alive of a procedure are the own ones that were put in front, those of the journal that no own update erases,
/// and the own ones that were put behind.
pub fn living_law()
    ensures { (b m : ℕ) (us : List Stamped) (own : List Update) (p : Indicator) → AllUnder b us →
        living (us ++ own_batch b m own) p ≡ (own_fronts (own_batch b m own) p ++ not_erased (take m own) (living us p)) ++ own_backs (own_batch b m own) p }
{}

/// So are those of a view: of the batches below `g`, with the first `m` own updates on top.
pub fn view_law()
    ensures { (g m : ℕ) (us : List Stamped) (own : List Update) (p : Indicator) →
        living (view us g own m) p ≡ (own_fronts (own_batch g m own) p ++ not_erased (take m own) (living (before g us) p)) ++ own_backs (own_batch g m own) p }
{}

/// The own clauses alone are those that were put in front, and then those that were put behind.
pub fn own_order_law()
    ensures { (b m : ℕ) (own : List Update) (p : Indicator) → living (own_batch b m own) p ≡ own_fronts (own_batch b m own) p ++ own_backs (own_batch b m own) p }
{}
