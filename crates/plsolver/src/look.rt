//! Look-ups of clauses in a view, before a walk over them is opened.

ghost use Rattle.std.specs.Prelude.{◌≡◌, ◌∷◌, ◌++◌, [], IfNone, IfOk, IfSome, OnErr, OnOk};
ghost use Rattle.plcells.specs.Store.{value, IsValue};
ghost use Rattle.plclause.specs.Indicators.{indicator};
ghost use Rattle.plevent.specs.Alive.{exists as exists_of, living};
ghost use Rattle.plevent.specs.Keys.{first_key};
ghost use Rattle.plprogram.specs.Program.{Program as Given};
ghost use Rattle.plstore.specs.Like.{next_like_of};
ghost use Rattle.plstore.specs.Looking.{Views};
ghost use Rattle.plstore.specs.declared.query.Query.TheVariants.{Exists as ExistsQuery};
ghost use Rattle.plrecords.specs.declared.record.Cursor.TheVariants.{Start as StartOf};
ghost use Rattle.plterm.specs.Tree.{Tree};
ghost use Rattle.plviews.specs.Views.{AreOrdered};
ghost use Rattle.plsearch.specs.Lookups.{missing};
ghost use Rattle.plstack.specs.Frames.{IsSpotSeen};
ghost use Rattle.plstack.specs.Places.{head_in, viewed};
ghost use Rattle.plstack.specs.State.{goals_of, walks_in, IsFit};
ghost use Rattle.plmachine.specs.Clauses.{Walks};
ghost use Rattle.plmachine.specs.Machine.{local_of, IsPlain, Moved};
ghost use Rattle.plmachine.specs.declared.machine.Find.{Find as OfFind};
ghost use Rattle.plmachine.specs.declared.machine.Find.TheVariants.{All as AllOf, Exists as ExistsOf, First as FirstOf};
ghost use Rattle.plmachine.specs.declared.machine.Mode.TheVariants.{Find as Finds};
ghost use Rattle.plsolver.specs.Asking.{activations, in_cases, FindAsked, Onward};
ghost use Rattle.plsolver.specs.Fetching.{like, mode_none, NoneInFront, NoneNames};
ghost use Rattle.plsolver.specs.Solver.{latest_view, IsOf, Keeps, KeepsRest, PausesAt, Stays};

use crate::progress::{Pause, Progress};
use crate::step::spot_behind;
use plcells::cell::Cell;
use plerror::error;
use plevent::ClauseName;
use plmachine::machine::{Find, Mode, Outcome, Sought};
use plmachine::sought::head_of;
use plprogram::settings::Unknown;
use plrecords::Cursor;
use plrefusals::value::indicator_of;
use plstack::frame::{Spot, Use, Walk};
use plterm::indicator::Indicator;
use pltx::OwnCursor;
use plviews::{Reach, Step, View};
use std::alloc::AllocError;

impl Progress {
    /// A look-up in hand goes on, as far as own updates tell: then there is none, or the journal is to be asked.
    pub(crate) fn find(&mut self) -> Result<Option<Pause>, AllocError>
        requires of { (P : Given) × IsOf P self.old.machine }
        ensures keeps { (P : Given) → IsOf P self.old.machine → Keeps P self.old self.new }
        ensures plain { IfOk result (λ o. IfNone o (IsPlain self.new.machine.mode)) }
        ensures due { (P : Given) → IsOf P self.old.machine → IfOk result (λ o. IfSome o (λ pause. PausesAt P self.new pause)) }
        ensures walks { Onward 0 (activations self.old.machine) (in_cases self.new.machine.stack) }
        ensures asks { IfOk result (λ o. Onward 0 (activations self.old.machine) (activations self.new.machine)) }
    {
        let Mode::Find(find) = &self.machine.mode else {
            return Ok(None);
        };
        match find {
            Find::First(sought, view) => {
                let (sought, view) = (*sought, *view);
                self.find_first(sought, view)
            }
            Find::Exists(goal, view) => {
                let (goal, view) = (*goal, *view);
                self.find_procedure(goal, view)
            }
            Find::All(head, view) => {
                let (head, view) = (*head, *view);
                self.find_all(head, view)
            }
            Find::Sweep(_, _) => self.sweep(),
        }
    }

    /// The first clause for a goal, where that is an own one: it is walked from there.
    fn find_first(&mut self, sought: Sought, view: View) -> Result<Option<Pause>, AllocError>
        requires of { (P : Given) × IsOf P self.old.machine }
        requires finds { self.old.machine.mode ≡ Finds (FirstOf sought view) }
        ensures keeps { (P : Given) → IsOf P self.old.machine → Keeps P self.old self.new }
        ensures plain { IfOk result (λ o. IfNone o (IsPlain self.new.machine.mode)) }
        ensures due { (P : Given) → IsOf P self.old.machine → IfOk result (λ o. IfSome o (λ pause. PausesAt P self.new pause)) }
        ensures walks { Onward 0 (activations self.old.machine) (in_cases self.new.machine.stack) }
        ensures asks { IfOk result (λ o. Onward 0 (activations self.old.machine) (activations self.new.machine)) }
    {
        let heap = self.machine.stack.env().heap();
        let head = head_of(heap, sought.uses, sought.goal);
        let step = self.step_at(head, view, Reach::Front(OwnCursor::Start))?;
        match step {
            Step::Next(name, reach) => {
                self.walk_from(sought, Spot::At(view, name, reach))?;
                Ok(None)
            }
            Step::Nothing => unreachable!(),
            Step::Asks(_) => Ok(Some(Pause::Fetch)),
        }
    }

    /// Whether the procedure of a goal exists, where no clause may be for the goal and an own update names the procedure: the goal fails.
    fn find_procedure(&mut self, goal: Cell, view: View) -> Result<Option<Pause>, AllocError>
        requires of { (P : Given) × IsOf P self.old.machine }
        requires finds { self.old.machine.mode ≡ Finds (ExistsOf goal view) }
        ensures keeps { (P : Given) → IsOf P self.old.machine → Keeps P self.old self.new }
        ensures plain { IfOk result (λ o. IfNone o (IsPlain self.new.machine.mode)) }
        ensures due { (P : Given) → IsOf P self.old.machine → IfOk result (λ o. IfSome o (λ pause. PausesAt P self.new pause)) }
        ensures walks { Onward 0 (activations self.old.machine) (in_cases self.new.machine.stack) }
        ensures asks { IfOk result (λ o. Onward 0 (activations self.old.machine) (activations self.new.machine)) }
    {
        if !self.is_named(&goal, view)? {
            return Ok(Some(Pause::Fetch));
        }
        self.machine.mode = Mode::Back(Outcome::Fail);
        Ok(None)
    }

    /// Whether the procedure of a head exists, where an own update names it: its clauses are looked through.
    fn find_all(&mut self, head: Cell, view: View) -> Result<Option<Pause>, AllocError>
        requires of { (P : Given) × IsOf P self.old.machine }
        requires finds { self.old.machine.mode ≡ Finds (AllOf head view) }
        ensures keeps { (P : Given) → IsOf P self.old.machine → Keeps P self.old self.new }
        ensures plain { IfOk result (λ o. IfNone o (IsPlain self.new.machine.mode)) }
        ensures due { (P : Given) → IsOf P self.old.machine → IfOk result (λ o. IfSome o (λ pause. PausesAt P self.new pause)) }
        ensures walks { Onward 0 (activations self.old.machine) (in_cases self.new.machine.stack) }
        ensures asks { IfOk result (λ o. Onward 0 (activations self.old.machine) (activations self.new.machine)) }
    {
        if !self.is_named(&head, view)? {
            return Ok(Some(Pause::Fetch));
        }
        self.begin_sweep(head, view);
        self.sweep()
    }

    /// The clauses for a goal are walked through from a spot.
    fn walk_from(&mut self, sought: Sought, spot: Spot) -> Result<(), AllocError>
        requires goal { IsValue self.old.machine.stack.env.heap sought.goal }
        requires seen { IsSpotSeen self.old.machine.stack.basis.latest spot }
        requires fits { IsFit self.old.machine.stack self.old.machine.stack.goals }
        ensures ok { (P : Given) → OnOk result (Walks P self.old.machine self.new.machine (value self.old.machine.stack.env.heap sought.goal) sought.uses spot (goals_of self.old.machine.stack self.old.machine.stack.goals)) }
        ensures walks { OnOk result (walks_in self.new.machine.stack ≡ viewed (record { goal = sought.goal; uses = sought.uses; spot = spot }) spot ++ walks_in self.old.machine.stack) }
        ensures frame { self.new ≡ record self.old { machine = self.new.machine } }
        ensures err { (P : Given) → OnErr result (Stays P self.old self.new) }
    {
        let rest = self.machine.stack.visited();
        let walk = Walk {
            goal: sought.goal,
            uses: sought.uses,
            spot,
        };
        self.machine.walk(walk, rest)
    }

    /// The first clause of the journal that may be for a goal was sought: the clauses are walked through from there, or there is none.
    pub(crate) fn found_first(
        &mut self,
        sought: Sought,
        view: View,
        found: Option<ClauseName>,
    ) -> Result<(), AllocError>
        requires of { (P : Given) × IsOf P self.old.machine }
        requires finds { self.old.machine.mode ≡ Finds (FirstOf sought view) }
        ensures ok { (P : Given) → IsOf P self.old.machine → OnOk result ((v : Views) → AreOrdered v → let h = head_in sought.uses (value self.old.machine.stack.env.heap sought.goal) in NoneInFront self.old.machine.layer.own.updates view h → found ≡ next_like_of (first_key h) StartOf (living (v view.place) (indicator h)) → KeepsRest P v self.old self.new) }
        ensures of { (P : Given) → IsOf P self.old.machine → IsOf P self.new.machine }
        ensures latest { latest_view self.new ≡ latest_view self.old }
        ensures frame { self.new ≡ record self.old { machine = self.new.machine } }
        ensures err { (P : Given) → IsOf P self.old.machine → OnErr result (Stays P self.old self.new) }
        ensures asked { OnOk result ((v : Views) → AreOrdered v → let h = head_in sought.uses (value self.old.machine.stack.env.heap sought.goal) in found ≡ next_like_of (first_key h) StartOf (living (v view.place) (indicator h)) → FindAsked v (FirstOf sought view) self.old.machine self.new.machine (like h StartOf)) }
    {
        let heap = self.machine.stack.env().heap();
        let head = head_of(heap, sought.uses, sought.goal);
        let step = self.step_from(head, view, found)?;
        match spot_behind(Spot::Seek(view, Reach::Base(Cursor::Start)), step) {
            Some(spot) => self.walk_from(sought, spot),
            None => {
                self.machine.mode = mode_without(sought, view);
                Ok(())
            }
        }
    }

    /// Whether the journal has the procedure of a goal was asked, where no clause may be for the goal: the goal fails, or that is an error.
    pub(crate) fn found_exists(
        &mut self,
        goal: Cell,
        view: View,
        exists: bool,
    ) -> Result<(), AllocError>
        requires of { (P : Given) × IsOf P self.old.machine }
        requires finds { self.old.machine.mode ≡ Finds (ExistsOf goal view) }
        ensures ok { (P : Given) → IsOf P self.old.machine → OnOk result ((v : Views) → AreOrdered v → let p = indicator (value self.old.machine.stack.env.heap goal) in NoneNames self.old.machine.layer.own.updates view p → exists ≡ exists_of (v view.place) p → KeepsRest P v self.old self.new) }
        ensures of { (P : Given) → IsOf P self.old.machine → IsOf P self.new.machine }
        ensures latest { latest_view self.new ≡ latest_view self.old }
        ensures frame { self.new ≡ record self.old { machine = self.new.machine } }
        ensures err { (P : Given) → IsOf P self.old.machine → OnErr result (Stays P self.old self.new) }
        ensures asked { OnOk result ((v : Views) → FindAsked v (ExistsOf goal view) self.old.machine self.new.machine (ExistsQuery (indicator (value self.old.machine.stack.env.heap goal)))) }
    {
        if exists {
            self.machine.mode = Mode::Back(Outcome::Fail);
            return Ok(());
        }
        let p = indicator_of(self.machine.alloc, self.machine.stack.env().heap(), &goal)?;
        self.missing(&p)
    }

    /// A call of a procedure that does not exist: an error or failure, by the flag `unknown`.
    fn missing(&mut self, p: &Indicator) -> Result<(), AllocError>
        requires of { (P : Given) × IsOf P self.old.machine }
        requires seeks { (f : OfFind) × (self.old.machine.mode ≡ Finds f) }
        requires fits { IsFit self.old.machine.stack self.old.machine.stack.goals }
        ensures ok { (P : Given) → IsOf P self.old.machine → OnOk result ((t : Tree) → p.now ≡ indicator t → Moved P self.old.machine self.new.machine (missing self.old.machine.settings.unknown t (goals_of self.old.machine.stack self.old.machine.stack.goals) (local_of self.old.machine))) }
        ensures of { (P : Given) → IsOf P self.old.machine → IsOf P self.new.machine }
        ensures latest { latest_view self.new ≡ latest_view self.old }
        ensures frame { self.new ≡ record self.old { machine = self.new.machine } }
        ensures err { (P : Given) → IsOf P self.old.machine → OnErr result (Stays P self.old self.new) }
    {
        match self.machine.settings.unknown {
            Unknown::Fail => {
                self.machine.mode = Mode::Back(Outcome::Fail);
                Ok(())
            }
            Unknown::Error => {
                let error = error::procedure_error(self.machine.alloc, p)?;
                let rest = self.machine.stack.visited();
                self.machine.raise(error, p, rest)
            }
        }
    }
}

/// What is next where no clause may be for a goal: of one that is called it is asked whether its procedure exists.
fn mode_without(sought: Sought, view: View) -> Mode
    ensures { result ≡ mode_none sought view }
{
    match sought.uses {
        Use::Call => Mode::Find(Find::Exists(sought.goal, view)),
        Use::Tell | Use::Erase => Mode::Back(Outcome::Fail),
    }
}
