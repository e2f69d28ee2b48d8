//! A store whose latest batches can be taken back.
ghost use Rattle.std.specs.Prelude.{◌≡◌, [], ◌∷◌, OnOk, OnErr, fold};
ghost use Rattle.std.specs.Option.{option_copied};
ghost use Rattle.plevent.specs.Alive.{stamped};
ghost use Rattle.plstore.specs.Cut.{cut};
ghost use Rattle.plrecords.specs.Kept.{keep, nothing, here, clause_of, is_there, walk, behind_all, picked};
ghost use Rattle.plstore.specs.Like.{first_like, next_like_of};

use crate::plan::made_plan;
use crate::sought::Sought;
use crate::steps::first_back;
use crate::tables::Tables;
use crate::trail::Traced;
use plclause::clause::Clause;
use plevent::{ClauseName, Key, Update};
use plrecords::record::{Cursor, Declared, Record};
use plterm::indicator::Indicator;
use std::alloc::{AllocError, Global};
use std::marker::Model;

/// The clauses of batches of one update each, and the procedures declared, as a store keeps them; and how to take back the
/// latest ones.
#[derive(Drop)]
pub struct Draft {
    traced: Traced,
}

impl Model for Draft {
    ghost use Rattle.plrecords.specs.Kept.{Kept, kept_code};

    ghost Value = { Kept };

    ghost coded = { kept_code };

    ghost view = { λ a. record { records = a.traced.tables.records.items; declared = a.traced.tables.declared.items } };

    ghost use Rattle.plstore.specs.Trail.{IsTraced};

    ghost invariant = { λ a. IsTraced a.traced };
}

impl Draft {
    /// A draft without clauses.
    pub fn new(alloc: Global) -> Draft
        ensures { result ≡ nothing }
    {
        Draft {
            traced: Traced {
                tables: Tables::new(alloc),
                trail: Vec::new(alloc),
            },
        }
    }

    /// Makes an update, alone in its batch, at a place above those of all before it.
    pub fn add(&mut self, update: &Update, place: u64) -> Result<(), AllocError>
        requires { cut place self.old ≡ self.old }
        ensures made { OnOk result (self.new ≡ fold keep self.old (stamped place 0 (update.now ∷ []))) }
        ensures refused { OnErr result (self.new ≡ self.old) }
    {
        let planned = made_plan(update)?;
        self.traced.add(planned, place)
    }

    /// Takes back the batches at `place` and above.
    pub fn cut(&mut self, place: u64)
        ensures { self.new ≡ cut place self.old }
    {
        self.traced.cut(place);
    }

    /// Whether a clause is alive after the batches below `g`.
    pub fn alive(&self, g: u64, name: ClauseName) -> bool
        ensures { result ≡ here g name self.now }
    {
        self.traced.tables.alive(g, name)
    }

    /// The clause that was made with a name, alive or not.
    pub fn clause(&self, name: ClauseName) -> Option<&Clause>
        ensures { option_copied result ≡ clause_of name self.now }
    {
        self.traced.tables.clause(name)
    }

    /// The name of the first clause of a procedure that is alive after the batches below `g` and may be for a goal of this
    /// key, or of the one behind that at the cursor, which may stand at any clause of the walk; none where that one is the
    /// last, or is not among them.
    pub fn next_like(
        &self,
        g: u64,
        pred: &Indicator,
        key: &Key,
        cursor: Cursor,
    ) -> Option<ClauseName>
        ensures { result ≡ next_like_of key.now cursor (walk g pred.now self.now.records) }
    {
        let sought = Sought { g, pred, key };
        self.traced.tables.next_like(&sought, cursor)
    }

    /// The name of the first one that was put behind all others.
    pub fn first_back(&self, g: u64, pred: &Indicator, key: &Key) -> Option<ClauseName>
        ensures { result ≡ first_like key.now (picked (behind_all pred.now) g self.now.records) }
    {
        let sought = Sought { g, pred, key };
        first_back(&self.traced.tables, &sought)
    }

    /// Whether some batch below `g` named the procedure: it declared it, or made a clause of it.
    pub fn exists(&self, g: u64, pred: &Indicator) -> bool
        ensures { result ≡ is_there g pred.now self.now }
    {
        self.traced.tables.exists(g, pred)
    }
}
