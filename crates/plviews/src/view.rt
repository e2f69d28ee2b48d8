//! What a call sees: batches of the journal, and own updates on top.
ghost use Rattle.std.specs.Prelude.{◌≡◌, ◌||◌, List, take};
ghost use Rattle.plevent.specs.Alive.{Stamped, exists, named};
ghost use Rattle.plstore.specs.Looking.{clause_alive};
ghost use Rattle.pltx.specs.Own.{erased_in};
ghost use Rattle.pltx.specs.declared.target.Target.TheVariants.{Committed};
ghost use Rattle.plviews.specs.Views.{sight, whole, IsAsks, IsBase, IsTold, IsUntouched};

use plclause::clause::Clause;
use plevent::ClauseName;
use plterm::indicator::Indicator;
use pltx::{Own, Target};

/// The batches of the journal below a place, and then the first `count` own updates as one last batch, at that place.
#[derive(Clone, Copy)]
pub struct View {
    pub place: u64,
    pub count: u64,
}

/// What own updates tell of the clause of a name.
#[derive(Clone, Copy)]
pub enum Told<'a> {
    /// It is alive.
    Clause(&'a Clause),
    /// It is not.
    Nothing,
    /// The journal is to be asked.
    Asks,
}

impl View {
    /// The clause of a name, where it is alive.
    pub fn clause<'a>(self, own: &'a Own, name: ClauseName) -> Told<'a>
        ensures told { (us : List Stamped) → IsBase us self.place (take self.count own.now.updates) → IsTold result (clause_alive name (whole (sight us self own.now.updates))) (clause_alive name us) }
        ensures asks { IsAsks result → IsUntouched own.now.updates self name }
    {
        if name.place == self.place {
            return self.own_clause(own, name.number);
        }
        if self.erases(own, name) {
            return Told::Nothing;
        }
        Told::Asks
    }

    /// The clause that an own update made.
    fn own_clause<'a>(self, own: &'a Own, number: u64) -> Told<'a>
        ensures told { (us : List Stamped) → IsBase us self.place (take self.count own.now.updates) → IsTold result (clause_alive (named self.place number) (whole (sight us self own.now.updates))) (clause_alive (named self.place number) us) }
        ensures known { IsAsks result → ⊥ }
    {
        match own.clause(self.count, number) {
            Some(clause) => Told::Clause(clause),
            None => Told::Nothing,
        }
    }

    /// Whether an own update erases a clause of the journal.
    pub(crate) fn erases(self, own: &Own, name: ClauseName) -> bool
        ensures { result ≡ erased_in (Committed name) (take self.count own.now.updates) }
    {
        self.count > 0 && own.erased(self.count, Target::Committed(name))
    }

    /// Whether an own update names a procedure, and so it exists; if not, it does where it does in the journal.
    pub fn names(self, own: &Own, pred: &Indicator) -> bool
        ensures { (us : List Stamped) → exists (whole (sight us self own.now.updates)) pred.now ≡ result || exists us pred.now }
    {
        self.count > 0 && own.exists_own(self.count, pred)
    }
}
