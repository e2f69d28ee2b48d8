//! What links the clauses that a walk passes.
ghost use Rattle.std.specs.Prelude.{◌≡◌, ◌≢◌, None, true};
ghost use Rattle.plevent.specs.Alive.{is_of};
ghost use Rattle.plevent.specs.declared.key.Key.TheVariants.{Any};
ghost use Rattle.plstore.specs.Chains.{in_chain};
ghost use Rattle.plrecords.specs.Links.{first_end};
ghost use Rattle.plstore.specs.Merged.{IsMerged};
ghost use Rattle.plstore.specs.Tables.{chain_ends, links_in, Chained};

use crate::sought::Sought;
use crate::tables::Tables;
use plevent::Key;
use plrecords::ends::{Ends, ends_of};
use plrecords::links::Links;
use plrecords::record::Record;
use plrecords::slot::Slots;
use plterm::indicator::Indicator;

/// Which links are walked: those of a procedure's clauses, or those of a slot's.
#[derive(Clone, Copy)]
pub(crate) enum Chain {
    Procedure,
    Slot(u64),
}

impl Chain {
    pub(crate) fn links<'t>(self, tables: &'t Tables) -> &'t Links
        ensures { result.now ≡ links_in tables.now self }
    {
        match self {
            Chain::Procedure => &tables.by_procedure,
            Chain::Slot(_) => &tables.by_slot,
        }
    }

    /// Where it begins and ends; the procedure's is that of `pred`.
    pub(crate) fn ends(self, tables: &Tables, pred: &Indicator) -> Ends
        ensures { result ≡ chain_ends tables.now pred.now self }
    {
        match self {
            Chain::Procedure => ends_of(&tables.index, pred),
            Chain::Slot(slot) => ends_of(&tables.slots, &slot),
        }
    }

    /// Whether it has a record of the procedure.
    pub(crate) fn has(self, pred: &Indicator, one: &Record) -> bool
        requires { is_of pred.now one.now.clause ≡ true }
        ensures { result ≡ in_chain pred.now self one.now.clause }
    {
        match self {
            Chain::Procedure => true,
            Chain::Slot(slot) => Slots::new(pred).of_head(&one.clause.head().root()) == slot,
        }
    }
}

/// The chains of a look-up, which together have each clause that is sought.
#[derive(Clone, Copy)]
pub(crate) struct Merged {
    pub(crate) own: Chain,
    pub(crate) any: Chain,
}

/// Where the chains of a look-up begin and end.
#[derive(Clone, Copy)]
pub(crate) struct MergedEnds {
    pub(crate) own: Ends,
    pub(crate) any: Ends,
}

impl MergedEnds {
    /// Whether neither chain has a record on a side.
    pub(crate) fn are_none(&self, front: bool) -> bool
        ensures own { result ≡ true → first_end front self.now.own ≡ None }
        ensures any { result ≡ true → first_end front self.now.any ≡ None }
    {
        self.own.first(front).is_none() && self.any.first(front).is_none()
    }
}

impl Merged {
    /// Whether both are one chain.
    pub(crate) fn is_one(&self) -> bool
        ensures { result ≡ true → self.now.any ≡ self.now.own }
    {
        match (self.own, self.any) {
            (Chain::Procedure, Chain::Procedure) => true,
            (Chain::Slot(own), Chain::Slot(any)) => own == any,
            (Chain::Procedure, Chain::Slot(_)) | (Chain::Slot(_), Chain::Procedure) => false,
        }
    }

    /// Where they begin and end.
    pub(crate) fn ends(&self, tables: &Tables, pred: &Indicator) -> MergedEnds
        ensures own { result.own ≡ chain_ends tables.now pred.now self.now.own }
        ensures any { result.any ≡ chain_ends tables.now pred.now self.now.any }
    {
        let own = self.own.ends(tables, pred);
        if self.is_one() {
            return MergedEnds { own, any: own };
        }
        let any = self.any.ends(tables, pred);
        MergedEnds { own, any }
    }
}

/// The chain of a key's slot, and that of the clauses with a variable, or nothing, as their first argument, unless there are
/// none.
fn merge_keyed(tables: &Tables, sought: &Sought<'_>) -> Merged
    requires chained { Chained tables.now }
    requires key { sought.now.key.now ≢ Any }
    ensures { IsMerged sought.now.pred.now sought.now.key.now tables.now.records.items result }
{
    let slots = Slots::new(sought.pred);
    let own = Chain::Slot(slots.of_key(sought.key));
    if !tables.unkeyed {
        return Merged { own, any: own };
    }
    Merged {
        own,
        any: Chain::Slot(slots.any()),
    }
}

/// The chains of a goal's key. For a goal of any key both are the procedure's.
pub(crate) fn merge(tables: &Tables, sought: &Sought<'_>) -> Merged
    requires { Chained tables.now }
    ensures { IsMerged sought.now.pred.now sought.now.key.now tables.now.records.items result }
{
    match sought.key {
        Key::Any => Merged {
            own: Chain::Procedure,
            any: Chain::Procedure,
        },
        _ => merge_keyed(tables, sought),
    }
}
