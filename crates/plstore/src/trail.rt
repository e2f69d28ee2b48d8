//! Tables whose latest updates can be taken back.
ghost use Rattle.std.specs.Prelude.{◌≡◌, ◌<◌, ◌≤◌, ◌++◌, ◌∷◌, [], reverse, IfNone, IfSome, OnErr, OnOk, vec_len};
ghost use Rattle.std.specs.Vec.{vec_capacity};
ghost use Rattle.plclause.specs.Indicators.{indicator};
ghost use Rattle.plevent.specs.Alive.{named};
ghost use Rattle.plstore.specs.Cut.{cut};
ghost use Rattle.plrecords.specs.Kept.{keep};
ghost use Rattle.plstore.specs.Plan.{put_update, update_of, IsPlanned};
ghost use Rattle.plstore.specs.Room.{HasRoom};
ghost use Rattle.plstore.specs.Tables.{kept_in};
ghost use Rattle.plstore.specs.Trail.{IsBelowPlace, IsReady, IsTraced, SameTables, WasBefore};
ghost use Rattle.plstore.specs.declared.tables.Tables.{Tables as Tabled};
ghost use Rattle.plevent.specs.declared.update.Update.TheVariants.{Declare, Erase};

use crate::plan::Planned;
use crate::tables::{
    Erasure, Linked, Tables, declare, erase, put, reserve, revive, undeclare, unput,
};
use plclause::clause::Clause;
use plevent::ClauseName;
use plrecords::ends::Ends;
use plterm::indicator::Indicator;
use std::alloc::AllocError;

/// What an update changed beside what it is itself, for taking it back.
#[derive(Drop)]
pub(crate) enum Change {
    /// A clause was put: its procedure, and what it was linked with.
    Put(Indicator, Linked),
    /// A clause was erased, which was not before.
    Erased(Erasure),
    /// A procedure was declared, with such ends before.
    Declared(Indicator, Ends),
}

/// A change, and the place of its batch.
#[derive(Drop)]
pub(crate) struct Step {
    pub(crate) place: u64,
    pub(crate) change: Change,
}

/// Tables, and the steps that led to them from nothing.
#[derive(Drop)]
pub(crate) struct Traced {
    pub(crate) tables: Tables,
    pub(crate) trail: Vec<Step>,
}

impl Traced {
    /// Makes an update, alone in its batch, whose place is above all before.
    pub(crate) fn add(&mut self, planned: Planned, place: u64) -> Result<(), AllocError>
        requires planned { IsPlanned planned }
        requires above { cut place (kept_in self.old.tables) ≡ kept_in self.old.tables }
        requires traced { IsTraced self.old }
        ensures made { OnOk result (kept_in self.new.tables ≡ keep (kept_in self.old.tables) (record { at = named place 0; update = update_of planned })) }
        ensures refused { OnErr result (kept_in self.new.tables ≡ kept_in self.old.tables) }
        ensures traced { IsTraced self.new }
    {
        match planned {
            Planned::Put(clause, pred, front) => self.put(clause, pred, front, place),
            Planned::Drop(of) => self.erase(of, place),
            Planned::DropOwn(number) => self.erase(ClauseName { place, number }, place),
            Planned::Name(pred, key) => self.declare(pred, key, place),
        }
    }

    fn put(
        &mut self,
        clause: Clause,
        pred: Indicator,
        front: bool,
        place: u64,
    ) -> Result<(), AllocError>
        requires pred { pred ≡ indicator clause.head }
        requires above { cut place (kept_in self.old.tables) ≡ kept_in self.old.tables }
        requires traced { IsTraced self.old }
        ensures made { OnOk result (kept_in self.new.tables ≡ keep (kept_in self.old.tables) (record { at = named place 0; update = put_update front clause })) }
        ensures refused { OnErr result (kept_in self.new.tables ≡ kept_in self.old.tables) }
        ensures traced { IsTraced self.new }
    {
        let key = pred.copied()?;
        self.reserve()?;
        let linked = put(
            &mut self.tables,
            ClauseName { place, number: 0 },
            clause,
            pred,
            front,
        );
        self.note(place, Change::Put(key, linked));
        Ok(())
    }

    fn erase(&mut self, of: ClauseName, place: u64) -> Result<(), AllocError>
        requires above { cut place (kept_in self.old.tables) ≡ kept_in self.old.tables }
        requires traced { IsTraced self.old }
        ensures made { OnOk result (kept_in self.new.tables ≡ keep (kept_in self.old.tables) (record { at = named place 0; update = Erase of })) }
        ensures refused { OnErr result (kept_in self.new.tables ≡ kept_in self.old.tables) }
        ensures traced { IsTraced self.new }
    {
        self.reserve()?;
        match erase(&mut self.tables, of, place) {
            None => return Ok(()),
            Some(erasure) => {
                self.note(place, Change::Erased(erasure));
                return Ok(());
            }
        }
    }

    fn declare(&mut self, pred: Indicator, key: Indicator, place: u64) -> Result<(), AllocError>
        requires key { key ≡ pred }
        requires above { cut place (kept_in self.old.tables) ≡ kept_in self.old.tables }
        requires traced { IsTraced self.old }
        ensures made { OnOk result (kept_in self.new.tables ≡ keep (kept_in self.old.tables) (record { at = named place 0; update = Declare pred })) }
        ensures refused { OnErr result (kept_in self.new.tables ≡ kept_in self.old.tables) }
        ensures traced { IsTraced self.new }
    {
        let noted = key.copied()?;
        self.reserve()?;
        let ends = declare(&mut self.tables, pred, key, place);
        self.note(place, Change::Declared(noted, ends));
        Ok(())
    }

    /// Makes room for one more update.
    fn reserve(&mut self) -> Result<(), AllocError>
        requires traced { IsTraced self.old }
        ensures room { OnOk result (HasRoom 1 self.new.tables) }
        ensures trail { OnOk result (vec_len self.new.trail < vec_capacity self.new.trail) }
        ensures kept { kept_in self.new.tables ≡ kept_in self.old.tables }
        ensures traced { IsTraced self.new }
    {
        reserve(&mut self.tables, 1)?;
        self.trail.reserve(1)?;
        Ok(())
    }

    /// Notes a step, for which there is room.
    fn note(&mut self, place: u64, change: Change)
        requires { vec_len self.old.trail < vec_capacity self.old.trail }
        ensures tables { self.new.tables ≡ self.old.tables }
        ensures trail { self.new.trail.items ≡ self.old.trail.items ++ record { place = place; change = change } ∷ [] }
    {
        match self.trail.push(Step { place, change }) {
            Ok(()) => {}
            Err(_) => unreachable!(),
        }
    }

    /// Takes back the updates of the batches at `place` and above.
    pub(crate) fn cut(&mut self, place: u64)
        requires traced { IsTraced self.old }
        ensures kept { kept_in self.new.tables ≡ cut place (kept_in self.old.tables) }
        ensures traced { IsTraced self.new }
    {
        while let Some(step) = self.last_from(place) {
            take_back(&mut self.tables, step.change);
        }
    }

    /// Takes the last step, where its place is at `place` or above.
    fn last_from(&mut self, place: u64) -> Option<Step>
        ensures tables { self.new.tables ≡ self.old.tables }
        ensures last { IfSome result (λ s. (place ≤ s.place) × (self.old.trail.items ≡ self.new.trail.items ++ s ∷ [])) }
        ensures below { IfNone result (IsBelowPlace place (reverse self.old.trail.items) × (self.new.trail.items ≡ self.old.trail.items)) }
    {
        if self.trail.last()?.place < place {
            return None;
        }
        self.trail.pop()
    }
}

/// Takes back the latest change.
fn take_back(tables: &mut Tables, change: Change)
    requires ready { IsReady change tables.old }
    ensures back { (was : Tabled) → WasBefore change was tables.old → SameTables was tables.new }
{
    match change {
        Change::Put(key, linked) => unput(tables, key, &linked),
        Change::Erased(erasure) => revive(tables, &erasure),
        Change::Declared(key, ends) => undeclare(tables, key, ends),
    }
}
