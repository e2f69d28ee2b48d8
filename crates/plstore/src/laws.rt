//! What a store keeps is the database at every time.
ghost use Rattle.std.specs.Prelude.{◌≡◌, ℕ, List, ◌∷◌, ◌++◌, None, fold, false, true};
ghost use Rattle.plterm.specs.Tree.{Tree};
ghost use Rattle.plsubst.specs.Subst.{shift};
ghost use Rattle.plsubst.specs.Unify.{unify};
ghost use Rattle.plevent.specs.Keys.{first_key, may_fit};
ghost use Rattle.plclause.specs.Clause.{Clause};
ghost use Rattle.plterm.specs.declared.indicator.Indicator.{Indicator};
ghost use Rattle.plevent.specs.declared.update.ClauseName.{ClauseName};
ghost use Rattle.plevent.specs.Alive.{Stamped, before, living, is_alive, exists, clause_named};
ghost use Rattle.plrecords.specs.Kept.{Kept, keep, nothing, walk, here, is_there, clause_of};
ghost use Rattle.plstore.specs.Looking.{found, found_in, clause_alive, Apart, Tells};
ghost use Rattle.plstore.specs.Cut.{cut};
ghost use Rattle.plrecords.specs.Rising.{AllUnder, Rises, Ordered};
ghost use Rattle.plstore.specs.declared.query.Query.{Query};
ghost use Rattle.plevent.specs.declared.update.Living.{Living};

/// Updates at rising places leave a store whose walk at each `g` is the clauses alive after the batches below `g`.
pub fn walk_law()
    ensures { (g : ℕ) (p : Indicator) (us : List Stamped) → Rises 0 us → walk g p (fold keep nothing us).records ≡ living (before g us) p }
{}

/// Later batches change no earlier walk.
pub fn walk_stays_law()
    ensures { (g : ℕ) (p : Indicator) (us : List Stamped) (k : Kept) → Rises g us → walk g p (fold keep k us).records ≡ walk g p k.records }
{}

/// A clause is seen at `g` exactly where it is alive after the batches below `g`.
pub fn alive_law()
    ensures { (g : ℕ) (x : ClauseName) (us : List Stamped) → Rises 0 us → here g x (fold keep nothing us) ≡ is_alive x (before g us) }
{}

/// A procedure is there at `g` exactly where a batch below `g` named it.
pub fn exists_law()
    ensures { (g : ℕ) (p : Indicator) (us : List Stamped) → is_there g p (fold keep nothing us) ≡ exists (before g us) p }
{}

/// The clause of a name is the one that was made with it.
pub fn clause_law()
    ensures { (x : ClauseName) (us : List Stamped) → clause_of x (fold keep nothing us) ≡ clause_named x us }
{}

/// A goal does not unify with a head that its key does not fit, whatever the head's variables are: a clause that is passed
/// over has no solution there.
pub fn passed_over_law()
    ensures { (goal head : Tree) → may_fit (first_key goal) (first_key head) ≡ false → (n : ℕ) → unify goal (shift n head) ≡ None }
{}

/// What is found at `g` in what is kept of updates at rising places is what is found after the batches below `g`.
pub fn look_law()
    ensures { (g : ℕ) (q : Query) (us : List Stamped) → Rises 0 us → found_in g q (fold keep nothing us) ≡ found (before g us) q }
{}

/// No two clauses alive have one name.
pub fn apart_law()
    ensures { (p : Indicator) (us : List Stamped) → Ordered us → Apart (living us p) }
{}

/// The clause that is found under a name is the one that is alive under it.
pub fn tells_law()
    ensures { (x : ClauseName) (p : Indicator) (us : List Stamped) → Ordered us → Tells x (clause_alive x us) (living us p) }
{}

/// A procedure that has a clause is there.
pub fn exists_alive_law()
    ensures { (p : Indicator) (y : Living) (ys : List Living) (us : List Stamped) → living us p ≡ y ∷ ys → exists us p ≡ true }
{}

/// Where the names of updates rise, those of the batches below `g` do.
pub fn before_ordered_law()
    ensures { (g : ℕ) (us : List Stamped) → Ordered us → Ordered (before g us) }
{}

/// What is kept after a cut at `g` is what is kept after the batches below `g`.
pub fn cut_law()
    ensures { (g : ℕ) (us : List Stamped) → Rises 0 us → cut g (fold keep nothing us) ≡ fold keep nothing (before g us) }
{}

/// Later batches may be cut off and others made: what was kept before them stays as it was.
pub fn cut_keeps_law()
    ensures { (g : ℕ) (us later : List Stamped) → AllUnder g us → Rises g later → cut g (fold keep nothing (us ++ later)) ≡ fold keep nothing us }
{}
