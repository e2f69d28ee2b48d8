//! The clauses of a procedure in a view, one after the other.
ghost use Rattle.std.specs.Prelude.{◌≡◌, ◌<◌, ℕ, List, take, IfSome, Some};
ghost use Rattle.std.specs.Option.{option_map};
ghost use Rattle.plevent.specs.Alive.{Stamped, living, named};
ghost use Rattle.plevent.specs.declared.update.Update.{Update};
ghost use Rattle.plrecords.specs.declared.record.Cursor.{Cursor as StoreCursor};
ghost use Rattle.plstore.specs.Like.{next_like_of};
ghost use Rattle.pltx.specs.Walks.{cursor_at, own_backs, own_batch, own_fronts, AllErasedApart};
ghost use Rattle.plviews.specs.declared.lookup.Lookup.{Lookup as Looked};
ghost use Rattle.plviews.specs.declared.lookup.Reach.TheVariants.{Front, Base, Back};
ghost use Rattle.plterm.specs.declared.indicator.Indicator.{Indicator as Procedure};
ghost use Rattle.plevent.specs.declared.key.Key.{Key as OfKey};
ghost use Rattle.plviews.specs.Lookups.{IsFurther, Leads, LeadsFound, SaysAt, SaysFound, StandsOn, Tells};

use crate::view::View;
use plevent::{ClauseName, Key};
use plrecords::Cursor;
use plterm::indicator::Indicator;
use pltx::{Own, OwnCursor};

/// The clauses of a procedure that may be for a goal of a key, looked up in a view with these own updates.
#[derive(Drop)]
pub struct Lookup<'a> {
    pub own: &'a Own,
    pub view: View,
    pub pred: &'a Indicator,
    pub key: &'a Key,
}

/// How far they are looked through: the own ones that were put before all others come first, then those of the journal, and
/// last the own ones that were put behind all others.
#[derive(Clone, Copy)]
pub enum Reach {
    Front(OwnCursor),
    Base(Cursor),
    Back(OwnCursor),
}

/// What comes next.
#[derive(Clone, Copy)]
pub enum Step {
    /// A clause, and how far they are looked through behind it.
    Next(ClauseName, Reach),
    /// There is no further one.
    Nothing,
    /// The journal is to be asked for the next clause behind a cursor.
    Asks(Cursor),
}

impl<'a> Lookup<'a> {
    /// The next clause.
    pub fn next(&self, reach: Reach) -> Step
        ensures tells { (us : List Stamped) → StandsOn us self.now → Tells us self.now reach result }
        ensures leads { Leads self.now.view reach result }
    {
        match reach {
            Reach::Front(cursor) => self.front(cursor),
            Reach::Base(cursor) => Step::Asks(cursor),
            Reach::Back(cursor) => self.back(cursor),
        }
    }

    /// The next clause where the journal, asked for one behind a cursor, gave this name. Where it is to be asked again, fewer
    /// clauses stand behind the new cursor.
    pub fn found(&self, name: Option<ClauseName>) -> Step
        ensures tells { (us : List Stamped) (c : StoreCursor) → StandsOn us self.now → name ≡ next_like_of self.now.key.now c (living us self.now.pred.now) → Tells us self.now (Base c) result }
        ensures further { (us : List Stamped) (c : StoreCursor) → StandsOn us self.now → name ≡ next_like_of self.now.key.now c (living us self.now.pred.now) → IsFurther us self.now c result }
        ensures leads { LeadsFound self.now.view name result }
    {
        match name {
            None => self.back(OwnCursor::Start),
            Some(name) => self.view.past(self.own, name),
        }
    }

    /// The next own clause that was put before all others; behind them come those of the journal.
    fn front(&self, cursor: OwnCursor) -> Step
        ensures tells { (us : List Stamped) → StandsOn us self.now → Tells us self.now (Front cursor) result }
        ensures leads { Leads self.now.view (Front cursor) result }
    {
        match self.next_front(cursor) {
            Some(number) => Step::Next(
                self.own_name(number),
                Reach::Front(OwnCursor::After(number)),
            ),
            None => Step::Asks(Cursor::Start),
        }
    }

    /// The next own clause that was put behind all others.
    fn back(&self, cursor: OwnCursor) -> Step
        ensures tells { (us : List Stamped) → StandsOn us self.now → Tells us self.now (Back cursor) result }
        ensures further { (us : List Stamped) (c : StoreCursor) → IsFurther us self.now c result }
        ensures leads { Leads self.now.view (Back cursor) result }
    {
        match self.next_back(cursor) {
            Some(number) => Step::Next(
                self.own_name(number),
                Reach::Back(OwnCursor::After(number)),
            ),
            None => Step::Nothing,
        }
    }

    fn next_front(&self, cursor: OwnCursor) -> Option<u64>
        ensures like { (b : ℕ) → AllErasedApart b (take self.now.view.count self.now.own.now.updates) → option_map (named b) result ≡ next_like_of self.now.key.now (cursor_at b cursor) (own_fronts (own_batch b self.now.view.count self.now.own.now.updates) self.now.pred.now) }
        ensures some { IfSome result (λ _. 0 < self.now.view.count) }
    {
        let count = self.view.count;
        if count == 0 {
            return None;
        }
        self.own.next_front(count, self.pred, self.key, cursor)
    }

    fn next_back(&self, cursor: OwnCursor) -> Option<u64>
        ensures like { (b : ℕ) → AllErasedApart b (take self.now.view.count self.now.own.now.updates) → option_map (named b) result ≡ next_like_of self.now.key.now (cursor_at b cursor) (own_backs (own_batch b self.now.view.count self.now.own.now.updates) self.now.pred.now) }
        ensures some { IfSome result (λ _. 0 < self.now.view.count) }
    {
        let count = self.view.count;
        if count == 0 {
            return None;
        }
        self.own.next_back(count, self.pred, self.key, cursor)
    }

    /// The name of the clause that an own update made.
    fn own_name(&self, number: u64) -> ClauseName
        ensures { result ≡ named self.now.view.place number }
    {
        ClauseName {
            place: self.view.place,
            number,
        }
    }
}

impl View {
    /// What comes next, where that is plain without a look at single own updates: the journal is to be asked, or there is no further one.
    pub fn at_once(self, own: &Own, reach: Reach) -> Option<Step>
        ensures says { IfSome result (λ step. (p : Procedure) (k : OfKey) → SaysAt own.now.updates self p k reach step) }
        ensures leads { IfSome result (Leads self reach) }
    {
        match reach {
            Reach::Base(cursor) => Some(Step::Asks(cursor)),
            Reach::Front(_) if self.count <= own.before_fronts() => {
                Some(Step::Asks(Cursor::Start))
            }
            Reach::Back(_) if self.count == 0 => Some(Step::Nothing),
            Reach::Front(_) | Reach::Back(_) => None,
        }
    }

    /// What comes next where the journal gave the name of a clause: one that an own update erases is passed over.
    pub fn past(self, own: &Own, name: ClauseName) -> Step
        ensures says { (p : Procedure) (k : OfKey) → SaysFound own.now.updates self p k (Some name) result }
        ensures further { (us : List Stamped) (l : Looked) (c : StoreCursor) → l.view ≡ self → StandsOn us l → Some name ≡ next_like_of l.key.now c (living us l.pred.now) → IsFurther us l c result }
        ensures leads { LeadsFound self (Some name) result }
    {
        let cursor = Cursor::After(name);
        if self.erases(own, name) {
            return Step::Asks(cursor);
        }
        Step::Next(name, Reach::Base(cursor))
    }
}
