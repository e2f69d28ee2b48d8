//! Walks over clauses that go on: own clauses are tried one after another, and of the others it is asked what it takes to try the next.

ghost use Rattle.std.specs.Prelude.{◌≡◌, IsTrue, IfNone, IfOk, IfSome, None, OnErr, OnOk, Option};
ghost use Rattle.plcells.specs.Store.{value, IsValue};
ghost use Rattle.plclause.specs.Indicators.{indicator};
ghost use Rattle.plevent.specs.Alive.{living};
ghost use Rattle.plevent.specs.Keys.{first_key};
ghost use Rattle.plevent.specs.declared.update.ClauseName.{ClauseName as Named};
ghost use Rattle.plprogram.specs.Program.{Program as Given};
ghost use Rattle.plstore.specs.Like.{next_like_of};
ghost use Rattle.plstore.specs.Looking.{clause_alive, Views};
ghost use Rattle.plstore.specs.declared.query.Query.TheVariants.{Clause as ClauseQuery};
ghost use Rattle.plrecords.specs.declared.record.Cursor.{Cursor as OfCursor};
ghost use Rattle.plviews.specs.Views.{AreOrdered, IsUntouched};
ghost use Rattle.plviews.specs.declared.lookup.Reach.{Reach as OfReach};
ghost use Rattle.plviews.specs.declared.lookup.Reach.TheVariants.{Base as BaseOf};
ghost use Rattle.plviews.specs.declared.view.View.{View as OfView};
ghost use Rattle.plstack.specs.Frames.{IsSpotSeen};
ghost use Rattle.plstack.specs.State.{HasWalk};
ghost use Rattle.plstack.specs.Walks.{AtWalk};
ghost use Rattle.plstack.specs.declared.frame.Ahead.{Ahead as OfAhead};
ghost use Rattle.plstack.specs.declared.frame.Point.{Point as OfPoint};
ghost use Rattle.plstack.specs.declared.frame.Spot.TheVariants.{Known as KnownOf};
ghost use Rattle.plstack.specs.declared.frame.Walk.{Walk as OfWalk};
ghost use Rattle.plmachine.specs.Machine.{IsTied};
ghost use Rattle.plsolver.specs.Asking.{Further, WalkAsked};
ghost use Rattle.plsolver.specs.Fetching.{like, spot_ahead, ComesToJournal, IsBase};
ghost use Rattle.plsolver.specs.Going.{head_at, walked_on, IsInView, IsToAsk, LooksBehind, SameCases, WalkedTo};
ghost use Rattle.plsolver.specs.Knowing.{Holds, IsKnown, Steps};
ghost use Rattle.plsolver.specs.Solver.{IsOf, Keeps, KeepsRest, Quiet, PausesAt, Stays};

use crate::progress::{Pause, Progress};
use crate::step::{Known, spot_ahead, spot_behind};
use plcells::cell::Cell;
use plclause::clause::Clause;
use plevent::ClauseName;
use plmachine::candidate;
use plmachine::clauses::mode_of;
use plmachine::machine::{Mode, Outcome};
use plmachine::sought::head_of;
use plprogram::program::Program;
use plstack::frame::Spot;
use plstack::walk::{Candidate, Entered, Walking};
use plviews::{Reach, Step, View};
use std::alloc::AllocError;

/// What a walk came to among own clauses.
#[derive(Clone, Copy)]
pub enum Walked {
    /// It goes on from this spot.
    On(Spot),
    /// A clause fits, and is entered.
    Into(Entered),
    /// The journal is to be asked.
    Asks,
    /// Nothing is left of it.
    Over,
}

impl Progress {
    /// The innermost case, a walk, goes on: over the program's text or among own clauses, as far as it takes no answer.
    pub(crate) fn next_clause(&mut self, program: &Program) -> Result<Option<Pause>, AllocError>
        requires fails { self.old.machine.mode ≡ Mode.Back Outcome.Fail }
        requires walk { HasWalk self.old.machine.stack }
        requires of { IsOf program.now self.old.machine }
        ensures on { IfOk result (λ o. IfNone o (Quiet program.now self.old self.new)) }
        ensures due { IfOk result (λ o. IfSome o (λ pause. PausesAt program.now self.new pause × Keeps program.now self.old self.new)) }
        ensures err { OnErr result (Keeps program.now self.old self.new) }
        ensures walks { Further self.old.machine.stack self.new.machine.stack }
    {
        let at = self.machine.stack.rewind_walk();
        // Most walks look at no own clauses.
        if self.asks(&at) {
            return Ok(Some(Pause::Fetch));
        }
        self.go_through(program)
    }

    /// A walk that need not ask the journal where it stands goes on. It stands apart, since most walks ask the journal at once, and what a
    /// function may need is set to zero where it begins.
    #[inline(never)]
    fn go_through(&mut self, program: &Program) -> Result<Option<Pause>, AllocError>
        requires fails { self.old.machine.mode ≡ Mode.Back Outcome.Fail }
        requires at { (p : OfPoint) × (w : OfWalk) × AtWalk self.old.machine.stack p w }
        requires of { IsOf program.now self.old.machine }
        ensures on { IfOk result (λ o. IfNone o (Quiet program.now self.old self.new)) }
        ensures due { IfOk result (λ o. IfSome o (λ pause. PausesAt program.now self.new pause × Keeps program.now self.old self.new)) }
        ensures err { OnErr result (Keeps program.now self.old self.new) }
        ensures walks { Further self.old.machine.stack self.new.machine.stack }
    {
        let innermost = self.machine.stack.walking();
        let Some(at) = &innermost else { unreachable!() };
        if let Spot::Text(number) = at.walk.spot {
            self.retry_text(program, at, number)?;
            return Ok(None);
        }
        self.walk_through(at)
    }

    /// Whether a walk is to ask the journal where it stands.
    fn asks(&self, at: &Walking) -> bool
        requires fails { self.now.machine.mode ≡ Mode.Back Outcome.Fail }
        requires at { AtWalk self.now.machine.stack at.now.point at.now.walk }
        requires seen { IsSpotSeen self.now.machine.stack.basis.latest at.now.walk.spot }
        requires tied { IsTied self.now.machine }
        ensures { IsTrue result → IsToAsk self.now.machine }
    {
        if let Spot::Known(view, name, _) = at.walk.spot {
            return self.is_untouched(view, name);
        }
        asks_journal(at.walk.spot)
    }

    /// A walk in a view goes through own clauses, up to one that fits, to where the journal is to be asked, or to its end.
    fn walk_through(&mut self, at: &Walking) -> Result<Option<Pause>, AllocError>
        requires fails { self.old.machine.mode ≡ Mode.Back Outcome.Fail }
        requires at { AtWalk self.old.machine.stack at.now.point at.now.walk }
        requires seen { IsSpotSeen self.old.machine.stack.basis.latest at.now.walk.spot }
        requires viewed { IsInView at.now.walk.spot }
        requires tied { IsTied self.old.machine }
        ensures on { IfOk result (λ o. IfNone o ((P : Given) → Quiet P self.old self.new)) }
        ensures due { IfOk result (λ o. IfSome o (λ pause. (P : Given) → PausesAt P self.new pause × Keeps P self.old self.new)) }
        ensures err { OnErr result ((P : Given) → Keeps P self.old self.new) }
        ensures walks { Further self.old.machine.stack self.new.machine.stack }
    {
        let mut at = *at;
        'walk: loop {
            match self.walk_on(&at)? {
                Walked::On(spot) => at.walk.spot = spot,
                Walked::Into(entered) => {
                    self.machine.mode = mode_of(entered);
                    return Ok(None);
                }
                Walked::Asks => return Ok(Some(Pause::Fetch)),
                Walked::Over => {
                    self.machine.stack.close();
                    return Ok(None);
                }
            }
        }
    }

    /// A walk in a view goes on: it is looked for what is behind its spot, or the clause there is tried.
    fn walk_on(&mut self, at: &Walking) -> Result<Walked, AllocError>
        requires fails { self.old.machine.mode ≡ Mode.Back Outcome.Fail }
        requires at { AtWalk self.old.machine.stack at.now.point at.now.walk }
        requires seen { IsSpotSeen self.old.machine.stack.basis.latest at.now.walk.spot }
        requires viewed { IsInView at.now.walk.spot }
        requires tied { IsTied self.old.machine }
        ensures ok { IfOk result (λ w. WalkedTo self.old.machine self.new.machine at.now w) }
        ensures err { OnErr result (SameCases self.old.machine self.new.machine) }
        ensures basis { self.new.machine.stack.basis ≡ self.old.machine.stack.basis }
        ensures frame { self.new ≡ record self.old { machine = record self.old.machine { stack = self.new.machine.stack } } }
        ensures walks { Further self.old.machine.stack self.new.machine.stack }
    {
        if asks_journal(at.walk.spot) {
            return Ok(Walked::Asks);
        }
        match at.walk.spot {
            Spot::Text(_) => unreachable!(),
            Spot::Seek(view, reach) | Spot::At(view, _, reach) => {
                let step = self.step_at(self.head_at(at), view, reach)?;
                Ok(self.walk_behind(at, step))
            }
            Spot::Known(view, name, ahead) => {
                let rest = spot_ahead(view, ahead);
                match self.known(at.walk.uses, view, name)? {
                    Known::Is(next) => self.try_own(at, &next, rest),
                    Known::Gone => Ok(self.walk_past(at, rest)),
                    Known::Asks => Ok(Walked::Asks),
                }
            }
        }
    }

    /// The head for which a walk looks clauses up.
    pub(crate) fn head_at(&self, at: &Walking) -> Cell
        requires { IsValue self.now.machine.stack.env.heap at.now.walk.goal }
        ensures there { IsValue self.now.machine.stack.env.heap result }
        ensures is { value self.now.machine.stack.env.heap result ≡ head_at self.now.machine at.now.walk }
    {
        let heap = self.machine.stack.env().heap();
        head_of(heap, at.walk.uses, at.walk.goal)
    }

    /// A walk stands where a step leads.
    fn walk_behind(&mut self, at: &Walking, step: Step) -> Walked
        requires fails { self.old.machine.mode ≡ Mode.Back Outcome.Fail }
        requires at { AtWalk self.old.machine.stack at.now.point at.now.walk }
        requires seen { IsSpotSeen self.old.machine.stack.basis.latest at.now.walk.spot }
        requires step { (g : OfView) × (r : OfReach) × LooksBehind at.now.walk.spot g r × Steps self.old.machine.layer.own.updates (head_at self.old.machine at.now.walk) g r step }
        ensures to { WalkedTo self.old.machine self.new.machine at.now result }
        ensures basis { self.new.machine.stack.basis ≡ self.old.machine.stack.basis }
        ensures frame { self.new ≡ record self.old { machine = record self.old.machine { stack = self.new.machine.stack } } }
        ensures walks { Further self.old.machine.stack self.new.machine.stack }
    {
        let Some(spot) = spot_behind(at.walk.spot, step) else {
            self.machine.stack.go_on_walk(None);
            return Walked::Over;
        };
        self.machine.stack.go_on_walk(Some(spot));
        match step {
            Step::Next(_, _) | Step::Nothing => Walked::On(spot),
            Step::Asks(_) => Walked::Asks,
        }
    }

    /// An own clause that is not alive is passed over.
    fn walk_past(&mut self, at: &Walking, rest: Option<Spot>) -> Walked
        requires at { AtWalk self.old.machine.stack at.now.point at.now.walk }
        requires seen { IsSpotSeen self.old.machine.stack.basis.latest at.now.walk.spot }
        requires gone { (g : OfView) × (x : Named) × (y : Option OfAhead) × (at.now.walk.spot ≡ KnownOf g x y) × (rest ≡ spot_ahead g y) × Holds self.old.machine.layer.own.updates g x None }
        ensures to { WalkedTo self.old.machine self.new.machine at.now result }
        ensures basis { self.new.machine.stack.basis ≡ self.old.machine.stack.basis }
        ensures frame { self.new ≡ record self.old { machine = record self.old.machine { stack = self.new.machine.stack } } }
        ensures walks { Further self.old.machine.stack self.new.machine.stack }
    {
        self.machine.stack.go_on_walk(rest);
        walked_to(rest)
    }

    /// An own clause is tried.
    fn try_own(
        &mut self,
        at: &Walking,
        next: &Candidate,
        rest: Option<Spot>,
    ) -> Result<Walked, AllocError>
        requires at { AtWalk self.old.machine.stack at.now.point at.now.walk }
        requires seen { IsSpotSeen self.old.machine.stack.basis.latest at.now.walk.spot }
        requires own { (g : OfView) × (x : Named) × (y : Option OfAhead) × (at.now.walk.spot ≡ KnownOf g x y) × (rest ≡ spot_ahead g y) × IsKnown self.old.machine.layer.own.updates at.now.walk.uses g x (Known.Is next.now) }
        ensures ok { IfOk result (λ w. WalkedTo self.old.machine self.new.machine at.now w) }
        ensures err { OnErr result (SameCases self.old.machine self.new.machine) }
        ensures basis { self.new.machine.stack.basis ≡ self.old.machine.stack.basis }
        ensures frame { self.new ≡ record self.old { machine = record self.old.machine { stack = self.new.machine.stack } } }
        ensures walks { Further self.old.machine.stack self.new.machine.stack }
    {
        match self.machine.stack.try_walk(next, rest)? {
            Some(entered) => Ok(Walked::Into(entered)),
            None => Ok(walked_to(rest)),
        }
    }

    /// The next clause of a walk was sought in the journal.
    pub(crate) fn walked_behind(
        &mut self,
        view: View,
        found: Option<ClauseName>,
    ) -> Result<(), AllocError>
        requires fails { self.old.machine.mode ≡ Mode.Back Outcome.Fail }
        requires of { (P : Given) × IsOf P self.old.machine }
        requires at { (p : OfPoint) × (w : OfWalk) × AtWalk self.old.machine.stack p w × ((c : OfCursor) × LooksBehind w.spot view (BaseOf c)) }
        ensures ok { OnOk result ((P : Given) (v : Views) (c : OfCursor) → (p : OfPoint) (w : OfWalk) → AtWalk self.old.machine.stack p w → AreOrdered v → LooksBehind w.spot view (BaseOf c) → found ≡ next_like_of (first_key (head_at self.old.machine w)) c (living (v view.place) (indicator (head_at self.old.machine w))) → KeepsRest P v self.old self.new) }
        ensures of { (P : Given) → IsOf P self.old.machine → IsOf P self.new.machine }
        ensures basis { self.new.machine.stack.basis ≡ self.old.machine.stack.basis }
        ensures frame { self.new ≡ record self.old { machine = self.new.machine } }
        ensures err { OnErr result ((P : Given) → Stays P self.old self.new) }
        ensures asked { OnOk result ((v : Views) (c : OfCursor) → (p : OfPoint) (w : OfWalk) → AtWalk self.old.machine.stack p w → AreOrdered v → LooksBehind w.spot view (BaseOf c) → found ≡ next_like_of (first_key (head_at self.old.machine w)) c (living (v view.place) (indicator (head_at self.old.machine w))) → WalkAsked v w self.old.machine self.new.machine (like (head_at self.old.machine w) c)) }
    {
        let Some(at) = self.machine.stack.walking() else {
            unreachable!()
        };
        let step = self.step_from(self.head_at(&at), view, found)?;
        let spot = spot_behind(at.walk.spot, step);
        self.machine.stack.go_on_walk(spot);
        Ok(())
    }

    /// The clause of a walk was sought in the journal: it is tried.
    pub(crate) fn walked(&mut self, clause: Option<Clause>) -> Result<(), AllocError>
        requires fails { self.old.machine.mode ≡ Mode.Back Outcome.Fail }
        requires at { (p : OfPoint) × (w : OfWalk) × AtWalk self.old.machine.stack p w × ((g : OfView) × (x : Named) × (y : Option OfAhead) × (w.spot ≡ KnownOf g x y)) }
        ensures ok { OnOk result ((P : Given) (v : Views) (g : OfView) (x : Named) (y : Option OfAhead) → (p : OfPoint) (w : OfWalk) → AtWalk self.old.machine.stack p w → AreOrdered v → w.spot ≡ KnownOf g x y → IsUntouched self.old.machine.layer.own.updates g x → clause ≡ clause_alive x (v g.place) → KeepsRest P v self.old self.new) }
        ensures of { (P : Given) → IsOf P self.old.machine → IsOf P self.new.machine }
        ensures basis { self.new.machine.stack.basis ≡ self.old.machine.stack.basis }
        ensures frame { self.new ≡ record self.old { machine = self.new.machine } }
        ensures err { OnErr result ((P : Given) → Stays P self.old self.new) }
        ensures asked { OnOk result ((v : Views) (g : OfView) (x : Named) (y : Option OfAhead) → (p : OfPoint) (w : OfWalk) → AtWalk self.old.machine.stack p w → w.spot ≡ KnownOf g x y → IsUntouched self.old.machine.layer.own.updates g x → WalkAsked v w self.old.machine self.new.machine (ClauseQuery x)) }
    {
        let Some(at) = self.machine.stack.walking() else {
            unreachable!()
        };
        let Spot::Known(view, name, ahead) = at.walk.spot else {
            unreachable!()
        };
        let rest = spot_ahead(view, ahead);
        let Some(clause) = clause else {
            self.machine.stack.go_on_walk(rest);
            return Ok(());
        };
        let next = candidate::of_name(at.walk.uses, name, clause);
        let Some(entered) = self.machine.stack.try_walk(&next, rest)? else {
            return Ok(());
        };
        self.machine.mode = mode_of(entered);
        Ok(())
    }
}

/// Whether the clauses of the journal behind a cursor come next, of which it is to be asked.
fn asks_journal(spot: Spot) -> bool
    ensures { IsTrue result → ComesToJournal spot }
{
    match spot {
        Spot::Text(_) | Spot::Known(_, _, _) => false,
        Spot::Seek(_, reach) => is_base(reach),
        Spot::At(_, _, reach) => is_base(reach),
    }
}

/// Whether the clauses of the journal behind a cursor come next.
fn is_base(reach: Reach) -> bool
    ensures { IsTrue result → IsBase reach }
{
    match reach {
        Reach::Base(_) => true,
        Reach::Front(_) | Reach::Back(_) => false,
    }
}

/// A walk goes on from a spot, if it has not ended.
fn walked_to(rest: Option<Spot>) -> Walked
    ensures { result ≡ walked_on rest }
{
    match rest {
        Some(spot) => Walked::On(spot),
        None => Walked::Over,
    }
}
