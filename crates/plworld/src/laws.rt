//! What holds of every journal, and of the store that keeps its updates.
ghost use Rattle.std.specs.Prelude.{◌≡◌, ◌≤◌, ◌++◌, ℕ, List, fold, length, take};
ghost use Rattle.plterm.specs.declared.indicator.Indicator.{Indicator};
ghost use Rattle.plevent.specs.declared.act.Entry.{Entry};
ghost use Rattle.plevent.specs.declared.update.ClauseName.{ClauseName};
ghost use Rattle.plevent.specs.Alive.{before, living, exists, is_alive};
ghost use Rattle.plevent.specs.Reading.{reading};
ghost use Rattle.plrecords.specs.Kept.{keep, nothing, walk, is_there, here};
ghost use Rattle.plrecords.specs.Rising.{Rises, AllUnder, Ordered};

/// The updates of a journal stand at rising places, which are below its length.
pub fn places_law()
    ensures rises { (h : List Entry) → Rises 0 (reading h).updates }
    ensures under { (h : List Entry) → AllUnder (length h) (reading h).updates }
{}

/// The updates below `g` are those of the first `g` entries.
pub fn before_law()
    ensures { (g : ℕ) (h : List Entry) → g ≤ length h → before g (reading h).updates ≡ (reading (take g h)).updates }
{}

/// The walk at `g` over what is kept of a journal is the clauses alive after its first `g` entries.
pub fn walk_law()
    ensures { (g : ℕ) (p : Indicator) (h : List Entry) → g ≤ length h → walk g p (fold keep nothing (reading h).updates).records ≡ living (reading (take g h)).updates p }
{}

/// A procedure is there at `g` in what is kept of a journal exactly where one of its first `g` entries named it.
pub fn exists_law()
    ensures { (g : ℕ) (p : Indicator) (h : List Entry) → g ≤ length h → is_there g p (fold keep nothing (reading h).updates) ≡ exists (reading (take g h)).updates p }
{}

/// A clause is seen at `g` in what is kept of a journal exactly where it is alive after its first `g` entries.
pub fn alive_law()
    ensures { (g : ℕ) (x : ClauseName) (h : List Entry) → g ≤ length h → here g x (fold keep nothing (reading h).updates) ≡ is_alive x (reading (take g h)).updates }
{}

/// The names of a journal's updates rise.
pub fn ordered_law()
    ensures { (h : List Entry) → Ordered (reading h).updates }
{}

/// Later entries change nothing below an earlier place.
pub fn view_stays_law()
    ensures { (g : ℕ) (h more : List Entry) → g ≤ length h → before g (reading (h ++ more)).updates ≡ before g (reading h).updates }
{}
