//! The store: every clause ever made, so that the database can be looked at as it was at each time.
ghost use Rattle.std.specs.Prelude.{◌≡◌, IfOk, OnOk, OnErr, fold, length};
ghost use Rattle.std.specs.Option.{option_copied};
ghost use Rattle.plevent.specs.Alive.{named, names_of, stamped};
ghost use Rattle.plrecords.specs.Kept.{keep, nothing, here, clause_of, is_there, next_of, walk};
ghost use Rattle.plstore.specs.Like.{next_like_of};
ghost use Rattle.plstore.specs.Looking.{clause_seen, found_in};
ghost use Rattle.plrecords.specs.Rising.{AllBelowPlace};

use crate::plan::{made_plan, plan};
use crate::query::{Found, Query};
use crate::sought::Sought;
use crate::tables::{Tables, erase, make, make_all, reserve};
use plclause::clause::Clause;
use plevent::{Batch, ClauseName, JournalPlace, Key, Update};
use plrecords::record::{Cursor, Declared, Record};
use plterm::indicator::Indicator;
use std::alloc::{AllocError, Global};
use std::marker::Model;

/// The clauses of all batches so far, and the procedures declared. Its times are places of the journal; in what it shares
/// with a draft, whose times are counts of own updates, each time is a plain count.
#[derive(Drop)]
pub struct Store {
    tables: Tables,
}

impl Model for Store {
    ghost use Rattle.plrecords.specs.Kept.{Kept, kept_code};

    ghost Value = { Kept };

    ghost coded = { kept_code };

    ghost view = { λ a. record { records = a.tables.records.items; declared = a.tables.declared.items } };

    ghost use Rattle.plstore.specs.Tables.{IsStored};

    ghost invariant = { λ a. IsStored a.tables };
}

impl Store {
    /// A store without clauses.
    pub fn new(alloc: Global) -> Store
        ensures { result ≡ nothing }
    {
        Store {
            tables: Tables::new(alloc),
        }
    }

    /// Makes the updates of a batch, whose place is above those of all batches before it.
    pub fn apply(
        &mut self,
        alloc: Global,
        batch: &Batch,
        place: JournalPlace,
    ) -> Result<(), AllocError>
        requires { AllBelowPlace place self.old.records }
        ensures made { OnOk result (self.new ≡ fold keep self.old (stamped place 0 batch.now)) }
        ensures refused { OnErr result (self.new ≡ self.old) }
    {
        let place = place.get();
        let updates = batch.as_slice();
        if let [update] = updates {
            return self.make_one(update, place);
        }
        let plan = plan(alloc, updates)?;
        reserve(&mut self.tables, plan.len())?;
        make_all(&mut self.tables, plan, place);
        Ok(())
    }

    /// Makes an update that is alone in its batch. An erasure takes no memory.
    fn make_one(&mut self, update: &Update, place: u64) -> Result<(), AllocError>
        requires { AllBelowPlace place self.old.records }
        ensures made { OnOk result (self.new ≡ keep self.old (record { at = named place 0; update = update.now })) }
        ensures refused { OnErr result (self.new ≡ self.old) }
    {
        if let Update::Erase(name) = update {
            erase(&mut self.tables, *name, place);
            return Ok(());
        }
        let planned = made_plan(update)?;
        reserve(&mut self.tables, 1)?;
        make(&mut self.tables, ClauseName { place, number: 0 }, planned);
        Ok(())
    }

    /// Whether a clause is alive after the batches below `g`.
    pub fn alive(&self, g: JournalPlace, name: ClauseName) -> bool
        ensures { result ≡ here g name self.now }
    {
        self.tables.alive(g.get(), name)
    }

    /// The clause that was made with a name, alive or not.
    pub fn clause(&self, name: ClauseName) -> Option<&Clause>
        ensures { option_copied result ≡ clause_of name self.now }
    {
        self.tables.clause(name)
    }

    /// The name of the first clause of a procedure that is alive after the batches below `g`, or of the one behind that
    /// at the cursor; none where that one is the last, or is not among them.
    pub fn next_visible(
        &self,
        g: JournalPlace,
        pred: &Indicator,
        cursor: Cursor,
    ) -> Option<ClauseName>
        ensures { result ≡ next_of cursor (names_of (walk g pred.now self.now.records)) }
    {
        self.next_like(g, pred, &Key::Any, cursor)
    }

    /// The same of the clauses that may be for a goal of this key: one that cannot fit by its first argument is passed
    /// over. The cursor may stand at any clause of the walk.
    pub fn next_like(
        &self,
        g: JournalPlace,
        pred: &Indicator,
        key: &Key,
        cursor: Cursor,
    ) -> Option<ClauseName>
        ensures { result ≡ next_like_of key.now cursor (walk g pred.now self.now.records) }
    {
        let sought = Sought {
            g: g.get(),
            pred,
            key,
        };
        self.tables.next_like(&sought, cursor)
    }

    /// Whether some batch below `g` named the procedure: it declared it, or made a clause of it.
    pub fn exists(&self, g: JournalPlace, pred: &Indicator) -> bool
        ensures { result ≡ is_there g pred.now self.now }
    {
        self.tables.exists(g.get(), pred)
    }

    /// What a query finds in the database after the batches below `g`.
    pub fn look(&self, g: JournalPlace, query: &Query) -> Result<Found, AllocError>
        ensures { IfOk result (λ f. f ≡ found_in g query.now self.now) }
    {
        match query {
            Query::NextLike(pred, key, cursor) => {
                let next = self.next_like(g, pred, key, *cursor);
                Ok(Found::Next(next))
            }
            Query::Next(pred, cursor) => {
                let next = self.next_visible(g, pred, *cursor);
                Ok(Found::Next(next))
            }
            Query::Clause(name) => {
                let clause = self.clause_seen(g, *name)?;
                Ok(Found::Clause(clause))
            }
            Query::Alive(name) => {
                let alive = self.alive(g, *name);
                Ok(Found::Alive(alive))
            }
            Query::Exists(pred) => {
                let exists = self.exists(g, pred);
                Ok(Found::Exists(exists))
            }
        }
    }

    /// The clause of a name, where it is alive after the batches below `g`.
    fn clause_seen(&self, g: JournalPlace, name: ClauseName) -> Result<Option<Clause>, AllocError>
        ensures { IfOk result (λ c. c ≡ clause_seen g name self.now) }
    {
        match self.tables.clause_seen(g.get(), name) {
            None => Ok(None),
            Some(clause) => Ok(Some(clause.copied()?)),
        }
    }
}
