//! What comes next in a view, as far as own updates tell: they are looked at first, and the journal is asked for the rest.
//!
//! No own update is looked at where a view shows none.

ghost use Rattle.std.specs.Prelude.{◌≡◌, IfOk, IsTrue};
ghost use Rattle.plcells.specs.Store.{value, IsValue};
ghost use Rattle.plclause.specs.Indicators.{indicator};
ghost use Rattle.plevent.specs.Alive.{exists};
ghost use Rattle.plviews.specs.Views.{IsUntouched};
ghost use Rattle.plviews.specs.declared.view.View.{View as OfView};
ghost use Rattle.pltx.specs.Walks.{own_batch};
ghost use Rattle.plstack.specs.Basis.{IsShown};
ghost use Rattle.plmachine.specs.Machine.{IsTied};
ghost use Rattle.plsolver.specs.Fetching.{spot_ahead, spot_behind};
ghost use Rattle.plsolver.specs.Knowing.{IsApart, IsKnown, Steps, StepsFound};

use crate::progress::Progress;
use plcells::cell::Cell;
use plevent::ClauseName;
use plmachine::candidate;
use plmachine::sought::first_key;
use plrefusals::value::indicator_of;
use plstack::frame::{Ahead, Spot, Use};
use plstack::walk::Candidate;
use pltx::{Own, OwnCursor};
use plviews::{Lookup, Reach, Step, Told, View};
use std::alloc::AllocError;

/// What own updates tell of the clause of a name.
#[derive(Drop)]
pub enum Known {
    /// It is alive, and this is the candidate that it makes.
    Is(Candidate),
    /// It is not.
    Gone,
    /// The journal is to be asked.
    Asks,
}

impl Progress {
    /// The own updates.
    fn own(&self) -> &Own
        requires { IsTied self.now.machine }
        ensures is { result.now ≡ self.now.machine.layer.own }
        ensures apart { (g : OfView) → IsShown g self.now.machine.stack.basis.latest → IsApart self.now.machine.layer.own.updates g }
    {
        self.machine.layer.own()
    }

    /// What comes next behind a reach, of the clauses that may have a head.
    pub(crate) fn step_at(&self, head: Cell, view: View, reach: Reach) -> Result<Step, AllocError>
        requires head { IsValue self.now.machine.stack.env.heap head }
        requires seen { IsShown view self.now.machine.stack.basis.latest }
        requires tied { IsTied self.now.machine }
        ensures { IfOk result (Steps self.now.machine.layer.own.updates (value self.now.machine.stack.env.heap head) view reach) }
    {
        let own = self.own();
        if let Some(step) = view.at_once(own, reach) {
            return Ok(step);
        }
        let heap = self.machine.stack.env().heap();
        let pred = indicator_of(self.machine.alloc, heap, &head)?;
        let key = first_key(heap, &head)?;
        let lookup = Lookup {
            own,
            view,
            pred: &pred,
            key: &key,
        };
        Ok(lookup.next(reach))
    }

    /// What comes next where the journal gave the name of a clause, or that there is no further one.
    pub(crate) fn step_from(
        &self,
        head: Cell,
        view: View,
        found: Option<ClauseName>,
    ) -> Result<Step, AllocError>
        requires head { IsValue self.now.machine.stack.env.heap head }
        requires seen { IsShown view self.now.machine.stack.basis.latest }
        requires tied { IsTied self.now.machine }
        ensures { IfOk result (StepsFound self.now.machine.layer.own.updates (value self.now.machine.stack.env.heap head) view found) }
    {
        match found {
            Some(name) => Ok(view.past(self.own(), name)),
            None => self.step_at(head, view, Reach::Back(OwnCursor::Start)),
        }
    }

    /// Whether an own update names the procedure of a head.
    pub(crate) fn is_named(&self, head: &Cell, view: View) -> Result<bool, AllocError>
        requires head { IsValue self.now.machine.stack.env.heap head.now }
        ensures { IfOk result (λ b. b ≡ exists (own_batch view.place view.count self.now.machine.layer.own.updates) (indicator (value self.now.machine.stack.env.heap head.now))) }
    {
        if view.count == 0 {
            return Ok(false);
        }
        let heap = self.machine.stack.env().heap();
        let pred = indicator_of(self.machine.alloc, heap, head)?;
        Ok(view.names(self.machine.layer.own(), &pred))
    }

    /// Whether the journal is to be asked for the clause of a name.
    pub(crate) fn is_untouched(&self, view: View, name: ClauseName) -> bool
        requires seen { IsShown view self.now.machine.stack.basis.latest }
        requires tied { IsTied self.now.machine }
        ensures { IsTrue result → IsUntouched self.now.machine.layer.own.updates view name }
    {
        matches!(view.clause(self.own(), name), Told::Asks)
    }

    /// What own updates tell of the clause of a name, which is used so.
    pub(crate) fn known(&self, uses: Use, view: View, name: ClauseName) -> Result<Known, AllocError>
        requires seen { IsShown view self.now.machine.stack.basis.latest }
        requires tied { IsTied self.now.machine }
        ensures { IfOk result (λ k. IsKnown self.now.machine.layer.own.updates uses view name k) }
    {
        match view.clause(self.own(), name) {
            Told::Clause(clause) => {
                let clause = clause.copied()?;
                Ok(Known::Is(candidate::of_name(uses, name, clause)))
            }
            Told::Nothing => Ok(Known::Gone),
            Told::Asks => Ok(Known::Asks),
        }
    }
}

/// Where a walk stands once it is told what comes next behind its spot, if it has not ended.
pub(crate) fn spot_behind(spot: Spot, step: Step) -> Option<Spot>
    ensures { result ≡ spot_behind spot step }
{
    match spot {
        Spot::Seek(view, _) => match step {
            Step::Next(name, reach) => Some(Spot::At(view, name, reach)),
            Step::Nothing => None,
            Step::Asks(cursor) => Some(Spot::Seek(view, Reach::Base(cursor))),
        },
        Spot::At(view, name, _) => match step {
            Step::Next(next, reach) => {
                let ahead = Ahead { name: next, reach };
                Some(Spot::Known(view, name, Some(ahead)))
            }
            Step::Nothing => Some(Spot::Known(view, name, None)),
            Step::Asks(cursor) => Some(Spot::At(view, name, Reach::Base(cursor))),
        },
        Spot::Text(_) | Spot::Known(_, _, _) => None,
    }
}

/// The spot at what is known to be next, if there is anything.
pub(crate) fn spot_ahead(view: View, ahead: Option<Ahead>) -> Option<Spot>
    ensures { result ≡ spot_ahead view ahead }
{
    match ahead {
        Some(next) => Some(Spot::At(view, next.name, next.reach)),
        None => None,
    }
}
