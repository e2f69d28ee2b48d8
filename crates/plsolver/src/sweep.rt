//! The erasure of all clauses of a head (ISO/IEC 13211-1 8.9.5): they are looked through one at a time.

ghost use Rattle.std.specs.Prelude.{◌≡◌, ◌++◌, [], IfNone, IfOk, IfSome, OnErr, OnOk, Option};
ghost use Rattle.plcells.specs.Store.{value, IsValue};
ghost use Rattle.plclause.specs.Indicators.{indicator};
ghost use Rattle.plevent.specs.Alive.{exists as exists_of, living};
ghost use Rattle.plevent.specs.Keys.{first_key};
ghost use Rattle.plprogram.specs.Program.{Program as Given};
ghost use Rattle.plstore.specs.Like.{next_like_of};
ghost use Rattle.plstore.specs.Looking.{Views};
ghost use Rattle.plstore.specs.declared.query.Query.TheVariants.{Exists as ExistsQuery};
ghost use Rattle.plrecords.specs.declared.record.Cursor.{Cursor as OfCursor};
ghost use Rattle.plviews.specs.Views.{AreOrdered};
ghost use Rattle.plviews.specs.declared.lookup.Reach.{Reach as OfReach};
ghost use Rattle.plviews.specs.declared.lookup.Reach.TheVariants.{Base as BaseOf, Front as FrontOf};
ghost use Rattle.pltx.specs.declared.own.OwnCursor.TheVariants.{Start as OwnStart};
ghost use Rattle.plmachine.specs.declared.machine.Find.TheVariants.{All as AllOf, Sweep as SweepOf};
ghost use Rattle.plmachine.specs.declared.machine.Mode.TheVariants.{Find as Finds};
ghost use Rattle.plmachine.specs.declared.machine.Sweep.{Sweep as OfSweep};
ghost use Rattle.plmachine.specs.declared.machine.SweepSpot.TheVariants.{At as AtOf, Seek as SeekOf};
ghost use Rattle.plmachine.specs.Machine.{IsPlain};
ghost use Rattle.plsolver.specs.Asking.{activations, in_cases, FindAsked, Onward, SeeksOn};
ghost use Rattle.plsolver.specs.Fetching.{erased_if, has_if, like, sweep_behind, NoneNames, Sweeping};
ghost use Rattle.plstack.specs.State.{walks_in, EndsWalks};
ghost use Rattle.plviews.specs.declared.view.View.{View as OfView};
ghost use Rattle.plcells.specs.declared.cell.Cell.{Cell as OfCell};
ghost use Rattle.plsolver.specs.Going.{GoesPast, IsSweeping, Publishes, StandsThere, SweptTo};
ghost use Rattle.plsolver.specs.Knowing.{Steps};
ghost use Rattle.plsolver.specs.Solver.{latest_view, IsOf, Keeps, KeepsRest, PausesAt, Stays};

use crate::progress::{Pause, Progress};
use crate::step::Known;
use plcells::cell::Cell;
use plclause::clause::Clause;
use plevent::{ClauseName, Update};
use plmachine::machine::{Find, Mode, Sweep, SweepSpot};
use plrefusals::value::indicator_of;
use plstack::frame::Use;
use pltx::OwnCursor;
use plviews::{Reach, Step, View};
use std::alloc::AllocError;
use std::mem;

/// What a sweep came to among own clauses.
#[derive(Clone, Copy)]
pub enum Swept {
    /// It goes on.
    On,
    /// The journal is to be asked.
    Asks,
    /// No clause is left.
    Over,
}

/// Where a sweep stands: the head, the view, and the spot.
#[derive(Clone, Copy)]
pub struct SweepPlace {
    pub head: Cell,
    pub view: View,
    pub spot: SweepSpot,
}

impl Progress {
    /// Whether the journal has the procedure of a head was asked: its clauses are looked through, or it is declared.
    pub(crate) fn found_all(
        &mut self,
        head: Cell,
        view: View,
        exists: bool,
    ) -> Result<(), AllocError>
        requires of { (P : Given) × IsOf P self.old.machine }
        requires finds { self.old.machine.mode ≡ Finds (AllOf head view) }
        ensures ok { (P : Given) → IsOf P self.old.machine → OnOk result ((v : Views) → AreOrdered v → let p = indicator (value self.old.machine.stack.env.heap head) in NoneNames self.old.machine.layer.own.updates view p → exists ≡ exists_of (v view.place) p → KeepsRest P v self.old self.new) }
        ensures of { (P : Given) → IsOf P self.old.machine → IsOf P self.new.machine }
        ensures latest { latest_view self.new ≡ latest_view self.old }
        ensures frame { self.new ≡ record self.old { machine = self.new.machine } }
        ensures err { (P : Given) → IsOf P self.old.machine → OnErr result (Stays P self.old self.new) }
        ensures asked { OnOk result ((v : Views) → FindAsked v (AllOf head view) self.old.machine self.new.machine (ExistsQuery (indicator (value self.old.machine.stack.env.heap head)))) }
    {
        if exists {
            self.begin_sweep(head, view);
            return Ok(());
        }
        let p = indicator_of(self.machine.alloc, self.machine.stack.env().heap(), &head)?;
        self.machine.declare_one(p)
    }

    /// The clauses of a head are looked through from the first on.
    pub(crate) fn begin_sweep(&mut self, head: Cell, view: View)
        ensures { (w : OfSweep) × (self.new ≡ record self.old { machine = record self.old.machine { mode = Finds (SweepOf head w) } }) × (w.view ≡ view) × (w.spot ≡ SeekOf (FrontOf OwnStart)) × (w.updates.items ≡ []) }
    {
        let sweep = Sweep {
            view,
            spot: SweepSpot::Seek(Reach::Front(OwnCursor::Start)),
            updates: Vec::new(self.machine.alloc),
        };
        self.machine.mode = Mode::Find(Find::Sweep(head, sweep));
    }

    /// The clauses of a head are looked through as far as own updates tell; behind the last one the erasures are made.
    pub(crate) fn sweep(&mut self) -> Result<Option<Pause>, AllocError>
        requires of { (P : Given) × IsOf P self.old.machine }
        requires sweeps { IsSweeping self.old }
        ensures keeps { (P : Given) → IsOf P self.old.machine → Keeps P self.old self.new }
        ensures plain { IfOk result (λ o. IfNone o (IsPlain self.new.machine.mode)) }
        ensures due { (P : Given) → IsOf P self.old.machine → IfOk result (λ o. IfSome o (λ pause. PausesAt P self.new pause)) }
        ensures walks { Onward 0 (activations self.old.machine) (in_cases self.new.machine.stack) }
        ensures asks { IfOk result (λ o. Onward 0 (activations self.old.machine) (activations self.new.machine)) }
    {
        'sweep: loop {
            match self.sweep_on()? {
                Swept::On => {}
                Swept::Asks => return Ok(Some(Pause::Fetch)),
                Swept::Over => {
                    self.publish_swept()?;
                    return Ok(None);
                }
            }
        }
    }

    /// A sweep goes on: it is looked for what is behind its spot, or at the clause there.
    fn sweep_on(&mut self) -> Result<Swept, AllocError>
        requires of { (P : Given) × IsOf P self.old.machine }
        requires sweeps { IsSweeping self.old }
        ensures ok { IfOk result (λ r. SweptTo self.old self.new r) }
        ensures keeps { (P : Given) → Keeps P self.old self.new }
        ensures walks { walks_in self.new.machine.stack ≡ walks_in self.old.machine.stack }
        ensures sought { IfOk result (λ r. SeeksOn self.old.machine self.new.machine) }
    {
        let SweepPlace { head, view, spot } = self.sweeping();
        match spot {
            SweepSpot::Seek(reach) => {
                let step = self.step_at(head, view, reach)?;
                Ok(self.sweep_behind(step))
            }
            SweepSpot::At(name, reach) => match self.known(Use::Call, view, name)? {
                Known::Is(next) => {
                    self.sweep_past(name, reach, &Some(next.clause))?;
                    Ok(Swept::On)
                }
                Known::Gone => {
                    self.sweep_past(name, reach, &None)?;
                    Ok(Swept::On)
                }
                Known::Asks => Ok(Swept::Asks),
            },
        }
    }

    /// Where the sweep in hand stands.
    pub(crate) fn sweeping(&self) -> SweepPlace
        requires { IsSweeping self.now }
        ensures { StandsThere self.now result }
    {
        let Mode::Find(find) = &self.machine.mode else {
            unreachable!()
        };
        let Find::Sweep(head, sweep) = find else {
            unreachable!()
        };
        SweepPlace {
            head: *head,
            view: sweep.view,
            spot: sweep.spot,
        }
    }

    /// A sweep stands where a step leads.
    fn sweep_behind(&mut self, step: Step) -> Swept
        requires of { (P : Given) × IsOf P self.old.machine }
        requires sweeps { IsSweeping self.old }
        requires step { (c : OfCell) × (g : OfView) × (r : OfReach) × Sweeping self.old c g (SeekOf r) × Steps self.old.machine.layer.own.updates (value self.old.machine.stack.env.heap c) g r step }
        ensures to { SweptTo self.old self.new result }
        ensures keeps { (P : Given) → Keeps P self.old self.new }
        ensures walks { walks_in self.new.machine.stack ≡ walks_in self.old.machine.stack }
        ensures sought { SeeksOn self.old.machine self.new.machine }
    {
        let Some(spot) = sweep_behind(step) else {
            return Swept::Over;
        };
        self.sweep_at(spot);
        match step {
            Step::Next(_, _) | Step::Nothing => Swept::On,
            Step::Asks(_) => Swept::Asks,
        }
    }

    /// The next clause was sought in the journal: it is looked at next, or the erasures are made.
    pub(crate) fn swept_behind(&mut self, found: Option<ClauseName>) -> Result<(), AllocError>
        requires of { (P : Given) × IsOf P self.old.machine }
        requires sweeps { (c : OfCell) × (g : OfView) × (cur : OfCursor) × Sweeping self.old c g (SeekOf (BaseOf cur)) }
        ensures ok { (P : Given) → IsOf P self.old.machine → OnOk result ((v : Views) (c : OfCell) (g : OfView) (cur : OfCursor) → AreOrdered v → Sweeping self.old c g (SeekOf (BaseOf cur)) → let h = value self.old.machine.stack.env.heap c in found ≡ next_like_of (first_key h) cur (living (v g.place) (indicator h)) → KeepsRest P v self.old self.new) }
        ensures of { (P : Given) → IsOf P self.old.machine → IsOf P self.new.machine }
        ensures latest { latest_view self.new ≡ latest_view self.old }
        ensures frame { self.new ≡ record self.old { machine = self.new.machine } }
        ensures err { (P : Given) → IsOf P self.old.machine → OnErr result (Stays P self.old self.new) }
        ensures asked { OnOk result ((v : Views) (c : OfCell) (w : OfSweep) (cur : OfCursor) → AreOrdered v → self.old.machine.mode ≡ Finds (SweepOf c w) → w.spot ≡ SeekOf (BaseOf cur) → let h = value self.old.machine.stack.env.heap c in found ≡ next_like_of (first_key h) cur (living (v w.view.place) (indicator h)) → FindAsked v (SweepOf c w) self.old.machine self.new.machine (like h cur)) }
    {
        let at = self.sweeping();
        let step = self.step_from(at.head, at.view, found)?;
        match sweep_behind(step) {
            Some(spot) => {
                self.sweep_at(spot);
                Ok(())
            }
            None => self.publish_swept(),
        }
    }

    /// The clause of a name is to be erased, if there is one and it has the head, and those behind it are looked through.
    pub(crate) fn sweep_past(
        &mut self,
        name: ClauseName,
        reach: Reach,
        clause: &Option<Clause>,
    ) -> Result<(), AllocError>
        requires of { (P : Given) × IsOf P self.old.machine }
        requires sweeps { (c : OfCell) × (g : OfView) × Sweeping self.old c g (AtOf name reach) }
        ensures ok { OnOk result (GoesPast self.old self.new name reach clause.now) }
        ensures of { (P : Given) → IsOf P self.old.machine → IsOf P self.new.machine }
        ensures latest { latest_view self.new ≡ latest_view self.old }
        ensures frame { self.new ≡ record self.old { machine = self.new.machine } }
        ensures err { OnErr result ((P : Given) → Stays P self.old self.new) }
        ensures walks { walks_in self.new.machine.stack ≡ walks_in self.old.machine.stack }
    {
        let at = self.sweeping();
        let has = self.has_head(at.head, clause)?;
        self.sweep_erases(name, has)?;
        self.sweep_at(SweepSpot::Seek(reach));
        Ok(())
    }

    /// The sweep in hand stands at a spot.
    fn sweep_at(&mut self, spot: SweepSpot)
        requires { IsSweeping self.old }
        ensures { (c : OfCell) (w : OfSweep) → self.old.machine.mode ≡ Finds (SweepOf c w) → self.new ≡ record self.old { machine = record self.old.machine { mode = Finds (SweepOf c (record w { spot = spot })) } } }
    {
        let mode = mem::replace(&mut self.machine.mode, Mode::Visit);
        let Mode::Find(Find::Sweep(head, sweep)) = mode else {
            unreachable!()
        };
        let sweep = Sweep {
            view: sweep.view,
            spot,
            updates: sweep.updates,
        };
        self.machine.mode = Mode::Find(Find::Sweep(head, sweep));
    }

    /// The sweep in hand has one more clause to erase, if that has the head.
    fn sweep_erases(&mut self, name: ClauseName, has: bool) -> Result<(), AllocError>
        requires { IsSweeping self.old }
        ensures ok { OnOk result ((c : OfCell) (w : OfSweep) → self.old.machine.mode ≡ Finds (SweepOf c w) → (x : OfSweep) × (self.new ≡ record self.old { machine = record self.old.machine { mode = Finds (SweepOf c x) } }) × (x.view ≡ w.view) × (x.spot ≡ w.spot) × (x.updates.items ≡ w.updates.items ++ erased_if has name)) }
        ensures err { OnErr result ((c : OfCell) (w : OfSweep) → self.old.machine.mode ≡ Finds (SweepOf c w) → (x : OfSweep) × (self.new ≡ record self.old { machine = record self.old.machine { mode = Finds (SweepOf c x) } }) × (x.view ≡ w.view) × (x.spot ≡ w.spot) × (x.updates.items ≡ w.updates.items)) }
    {
        let mode = mem::replace(&mut self.machine.mode, Mode::Visit);
        let Mode::Find(Find::Sweep(head, sweep)) = mode else {
            unreachable!()
        };
        let Sweep {
            view,
            spot,
            mut updates,
        } = sweep;
        let outcome = add_erasure(&mut updates, name, has);
        let sweep = Sweep {
            view,
            spot,
            updates,
        };
        self.machine.mode = Mode::Find(Find::Sweep(head, sweep));
        outcome
    }

    /// Whether there is a clause and its head unifies with a head.
    fn has_head(&mut self, head: Cell, clause: &Option<Clause>) -> Result<bool, AllocError>
        requires { IsValue self.old.machine.stack.env.heap head }
        ensures is { IfOk result (λ has. has ≡ has_if self.new.machine.stack.env.count (value self.new.machine.stack.env.heap head) clause.now) }
        ensures stays { (P : Given) → Stays P self.old self.new }
        ensures frame { self.new ≡ record self.old { machine = record self.old.machine { stack = self.new.machine.stack } } }
        ensures head { value self.new.machine.stack.env.heap head ≡ value self.old.machine.stack.env.heap head }
    {
        match clause {
            Some(clause) => self.machine.stack.has_head(head, clause),
            None => Ok(false),
        }
    }

    /// No clause is left: the erasures are made.
    fn publish_swept(&mut self) -> Result<(), AllocError>
        requires of { (P : Given) × IsOf P self.old.machine }
        requires sweeps { IsSweeping self.old }
        ensures ok { (P : Given) → IsOf P self.old.machine → OnOk result (Publishes P self.old self.new) }
        ensures of { (P : Given) → IsOf P self.old.machine → IsOf P self.new.machine }
        ensures latest { latest_view self.new ≡ latest_view self.old }
        ensures frame { self.new ≡ record self.old { machine = self.new.machine } }
        ensures err { (P : Given) → IsOf P self.old.machine → OnErr result (Stays P self.old self.new) }
        ensures walks { EndsWalks self.old.machine.stack self.new.machine.stack }
    {
        let rest = self.machine.stack.visited();
        self.machine.publish_swept(rest)
    }
}

/// Where a sweep stands behind a step, if a clause is left.
fn sweep_behind(step: Step) -> Option<SweepSpot>
    ensures { result ≡ sweep_behind step }
{
    match step {
        Step::Next(name, reach) => Some(SweepSpot::At(name, reach)),
        Step::Nothing => None,
        Step::Asks(cursor) => Some(SweepSpot::Seek(Reach::Base(cursor))),
    }
}

/// One more erasure, if there is one.
fn add_erasure(updates: &mut Vec<Update>, name: ClauseName, has: bool) -> Result<(), AllocError>
    ensures ok { OnOk result (updates.new.items ≡ updates.old.items ++ erased_if has name) }
    ensures err { OnErr result (updates.new.items ≡ updates.old.items) }
{
    if has {
        updates.push(Update::Erase(name))?;
    }
    Ok(())
}
