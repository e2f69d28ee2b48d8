//! The turns of a search that take no step: markers are passed, and results go outward.

ghost use Rattle.std.specs.Prelude.{◌≡◌, ◌+◌, ◌-◌, ◌≤◌, ◌↔◌, IfOk, OnOk, OnErr, IfSome, IfNone, IsTrue, true, false, length, nat_lt, AllPairs};
ghost use Rattle.std.specs.Option.{option_map};
ghost use Rattle.std.specs.List.Sorted.{IsPartitionPoint};
ghost use Rattle.plcells.specs.Store.{IsValue, value};
ghost use Rattle.plprogram.specs.Program.{Program as Given};
ghost use Rattle.plsearch.specs.Engine.{deeper};
ghost use Rattle.plsearch.specs.Handlers.{has};
ghost use Rattle.pllinks.specs.declared.link.Continuation.{Continuation as Continued};
ghost use Rattle.plstack.specs.Places.{Database};
ghost use Rattle.plstack.specs.State.{cases_of, EndsWalks, HasAnswers, HasCatcher, HasClauses, HasWalk, HasBranch, HasGatherer, HasPlain, HasUndo};
ghost use Rattle.plstack.specs.First.{IsFirst};
ghost use Rattle.plstack.specs.declared.first.First.TheVariants.{Marker as MarkerFirst};
ghost use Rattle.plmachine.specs.Machine.{depth_of, IsBegun, IsPlain, IsTied};
ghost use Rattle.plsolver.specs.Asking.{Further};
ghost use Rattle.plsolver.specs.Solver.{IsOf, Keeps, Stays, Quiet, PausesAt, Settled, IsBack, IsSelected, HasChoice, throws_to, Collects};

use crate::progress::{Due, Pause, Progress, Selected};
use plcells::cell::Cell;
use pllinks::item::MarkerKind;
use pllinks::level::Level;
use pllinks::link::Continuation;
use plmachine::machine::{Mode, Outcome};
use plprogram::program::Program;
use plstack::first::First;
use std::alloc::AllocError;

impl Progress {
    /// One turn that takes no step, where nothing is sought, unless something is due.
    #[tactic(auto, using(crate::proofs::Further::further_ends))]
    pub(crate) fn quiet_turn(&mut self, program: &Program) -> Result<Option<Due>, AllocError>
        requires within { self.old.used ≤ self.old.limit }
        requires of { IsOf program.now self.old.machine }
        requires plain { IsPlain self.old.machine.mode }
        ensures on { IfOk result (λ o. IfNone o (Quiet program.now self.old self.new)) }
        ensures due { IfOk result (λ o. IfSome o (λ due. Settled program.now self.new due × Keeps program.now self.old self.new)) }
        ensures err { OnErr result (Keeps program.now self.old self.new) }
        ensures walks { Further self.old.machine.stack self.new.machine.stack }
    {
        match &self.machine.mode {
            Mode::Visit => self.pass(),
            Mode::Ask(_) => Ok(paused(self.wait()?)),
            Mode::Find(_) => unreachable!(),
            Mode::Back(_) => Ok(paused(self.back(program)?)),
        }
    }

    /// One turn at a list.
    #[tactic(auto, using(crate::proofs::Ending::ends_same, crate::proofs::Ending::ends_refl))]
    fn pass(&mut self) -> Result<Option<Due>, AllocError>
        requires visits { self.old.machine.mode ≡ Mode.Visit }
        requires within { self.old.used ≤ self.old.limit }
        requires of { (P : Given) × IsOf P self.old.machine }
        ensures on { (P : Given) → IsOf P self.old.machine → IfOk result (λ o. IfNone o (Quiet P self.old self.new)) }
        ensures due { (P : Given) → IsOf P self.old.machine → IfOk result (λ o. IfSome o (λ due. Settled P self.new due × Stays P self.old self.new)) }
        ensures err { (P : Given) → IsOf P self.old.machine → OnErr result (Stays P self.old self.new) }
        ensures walks { EndsWalks self.old.machine.stack self.new.machine.stack }
    {
        let selected = match self.machine.stack.first() {
            First::Nothing => {
                self.succeed();
                return Ok(None);
            }
            First::Marker(kind, level, rest) => {
                self.pass_marker(kind, level, rest)?;
                return Ok(None);
            }
            First::Both(next, step) => Selected::Both(next, step),
            First::Step(run, step, rest) => Selected::Step(run, step, rest),
            First::Goal(level, v, rest) => Selected::Goal(level, v, rest),
        };
        Ok(self.due(selected))
    }

    /// A goal that is first is due, unless no step is left.
    fn due(&mut self, selected: Selected) -> Option<Due>
        requires first { IsSelected self.old.machine selected }
        requires within { self.old.used ≤ self.old.limit }
        ensures on { IfNone result ((P : Given) → Quiet P self.old self.new) }
        ensures due { IfSome result (λ due. ((P : Given) → Settled P self.new due) × (self.new ≡ self.old)) }
        ensures frame { self.new ≡ record self.old { machine = record self.old.machine { mode = self.new.machine.mode } } }
    {
        if self.used == self.limit {
            self.spend();
            return None;
        }
        Some(Due::Goal(selected))
    }

    /// No goal is left: the list has succeeded. A mode is wide, so that the turns that set none are kept free of it.
    #[inline(never)]
    fn succeed(&mut self)
        ensures { self.new ≡ record self.old { machine = record self.old.machine { mode = Mode.Back Outcome.Stop } } }
    {
        self.machine.mode = Mode::Back(Outcome::Stop);
    }

    /// No step is left.
    #[inline(never)]
    fn spend(&mut self)
        ensures { self.new ≡ record self.old { machine = record self.old.machine { mode = Mode.Back Outcome.Spent } } }
    {
        self.machine.mode = Mode::Back(Outcome::Spent);
    }

    /// One turn at a marker.
    #[tactic(auto, using(crate::proofs::Ending::ends_same, crate::proofs::Ending::ends_refl))]
    fn pass_marker(
        &mut self,
        kind: MarkerKind,
        level: Level,
        rest: Continuation,
    ) -> Result<(), AllocError>
        requires visits { self.old.machine.mode ≡ Mode.Visit }
        requires marker { IsFirst self.old.machine.stack (MarkerFirst kind level rest) }
        requires tied { IsTied self.old.machine }
        ensures ok { OnOk result ((P : Given) → Quiet P self.old self.new) }
        ensures err { OnErr result (self.new ≡ self.old) }
        ensures walks { EndsWalks self.old.machine.stack self.new.machine.stack }
    {
        match kind {
            MarkerKind::Commit => self.machine.stack.cut(level, rest)?,
            MarkerKind::Never => self.give_up(level),
            MarkerKind::Until => self.pass_until(level, &rest),
            MarkerKind::Collect(v) => self.collect(v, level)?,
            MarkerKind::Transact(outer) => self.end_transaction(outer, rest)?,
        }
        Ok(())
    }

    /// The marker at which the choices down to its level are given up and the list fails.
    #[tactic(auto, using(crate::proofs::Ending::ends_same, crate::proofs::Ending::ends_refl))]
    fn give_up(&mut self, level: Level)
        requires visits { self.old.machine.mode ≡ Mode.Visit }
        requires marker { (rest : Continued) × IsFirst self.old.machine.stack (MarkerFirst MarkerKind.Never level rest) }
        ensures quiet { (P : Given) → Quiet P self.old self.new }
        ensures walks { EndsWalks self.old.machine.stack self.new.machine.stack }
    {
        self.machine.stack.give_up_to(level);
        self.machine.mode = Mode::Back(Outcome::Fail);
    }

    /// The marker up to which a catcher is active: where choices with nothing left stand alone in the catcher, it becomes one of these.
    #[tactic(auto, using(crate::proofs::Ending::ends_same, crate::proofs::Ending::ends_refl))]
    fn pass_until(&mut self, level: Level, rest: &Continuation)
        requires visits { self.old.machine.mode ≡ Mode.Visit }
        requires marker { IsFirst self.old.machine.stack (MarkerFirst MarkerKind.Until level rest.now) }
        ensures quiet { (P : Given) → Quiet P self.old self.new }
        ensures walks { EndsWalks self.old.machine.stack self.new.machine.stack }
    {
        if level == Level::BOTTOM {
            self.machine.stack.visit(*rest);
            return;
        }
        if !self.machine.stack.leave_catcher(level, *rest) {
            self.machine.stack.visit(*rest);
        }
    }

    /// A copy of the term of a value is kept for the handler of a level, and the list fails.
    fn collect(&mut self, v: Cell, level: Level) -> Result<(), AllocError>
        requires { IsValue self.old.machine.stack.env.heap v }
        ensures ok { OnOk result (Collects self.old self.new level (value self.old.machine.stack.env.heap v)) }
        ensures err { OnErr result (self.new ≡ self.old) }
    {
        let alloc = self.machine.alloc;
        let heap = self.machine.stack.env().heap();
        self.machine.kept.keep(alloc, heap, v, level)?;
        self.machine.mode = Mode::Back(Outcome::Fail);
        Ok(())
    }

    /// One turn with a result.
    #[tactic(auto, using(crate::proofs::Further::further_ends))]
    fn back(&mut self, program: &Program) -> Result<Option<Pause>, AllocError>
        requires back { IsBack self.old }
        requires of { IsOf program.now self.old.machine }
        ensures on { IfOk result (λ o. IfNone o (Quiet program.now self.old self.new)) }
        ensures due { IfOk result (λ o. IfSome o (λ pause. PausesAt program.now self.new pause × Keeps program.now self.old self.new)) }
        ensures err { OnErr result (Keeps program.now self.old self.new) }
        ensures walks { Further self.old.machine.stack self.new.machine.stack }
    {
        if self.machine.stack.is_plain() {
            self.close_plain();
            return Ok(None);
        }
        if self.machine.stack.is_undo() {
            self.undo();
            return Ok(None);
        }
        if self.fails() {
            return self.fail(program);
        }
        if self.catches() {
            self.catch()?;
            return Ok(None);
        }
        Ok(self.close())
    }

    /// One turn with failure: the next place of the innermost choice, or it is closed.
    #[tactic(auto, using(crate::proofs::Further::further_ends))]
    fn fail(&mut self, program: &Program) -> Result<Option<Pause>, AllocError>
        requires fails { self.old.machine.mode ≡ Mode.Back Outcome.Fail }
        requires undone { HasUndo self.old.machine.stack → ⊥ }
        requires of { IsOf program.now self.old.machine }
        ensures on { IfOk result (λ o. IfNone o (Quiet program.now self.old self.new)) }
        ensures due { IfOk result (λ o. IfSome o (λ pause. PausesAt program.now self.new pause × Keeps program.now self.old self.new)) }
        ensures err { OnErr result (Keeps program.now self.old self.new) }
        ensures walks { Further self.old.machine.stack self.new.machine.stack }
    {
        if self.machine.stack.is_walk() {
            return self.next_clause(program);
        }
        if self.is_choice() {
            self.try_next()?;
            return Ok(None);
        }
        if self.machine.stack.is_gatherer() {
            self.gather()?;
            return Ok(None);
        }
        Ok(self.close())
    }

    /// Closes the innermost choices, which have nothing left.
    #[tactic(auto, using(crate::proofs::Ending::ends_same, crate::proofs::Ending::ends_refl))]
    fn close_plain(&mut self)
        requires back { IsBack self.old }
        requires plain { HasPlain self.old.machine.stack }
        ensures quiet { (P : Given) → Quiet P self.old self.new }
        ensures walks { EndsWalks self.old.machine.stack self.new.machine.stack }
    {
        self.machine.stack.close_plain();
    }

    /// The next place of the innermost choice.
    #[tactic(auto, using(crate::proofs::Ending::ends_same, crate::proofs::Ending::ends_refl))]
    fn try_next(&mut self) -> Result<(), AllocError>
        requires fails { self.old.machine.mode ≡ Mode.Back Outcome.Fail }
        requires choice { HasChoice self.old.machine.stack }
        requires begun { (P : Given) × IsBegun P self.old.machine }
        ensures ok { OnOk result ((P : Given) → IsBegun P self.old.machine → Quiet P self.old self.new) }
        ensures err { OnErr result ((P : Given) → IsBegun P self.old.machine → Stays P self.old self.new) }
        ensures walks { EndsWalks self.old.machine.stack self.new.machine.stack }
    {
        if self.machine.stack.is_branch() {
            self.take_branch();
            return Ok(());
        }
        if self.machine.stack.is_clauses() {
            return self.retry();
        }
        self.retry_answers()
    }

    /// The list of the innermost choice.
    #[tactic(auto, using(crate::proofs::Ending::ends_same, crate::proofs::Ending::ends_refl))]
    fn take_branch(&mut self)
        requires fails { self.old.machine.mode ≡ Mode.Back Outcome.Fail }
        requires branch { HasBranch self.old.machine.stack }
        ensures quiet { (P : Given) → Quiet P self.old self.new }
        ensures walks { EndsWalks self.old.machine.stack self.new.machine.stack }
    {
        self.machine.stack.take_branch();
        self.machine.mode = Mode::Visit;
    }

    /// The next clause of the innermost case, a call of a static procedure.
    #[tactic(auto, using(crate::proofs::Ending::ends_same, crate::proofs::Ending::ends_refl))]
    fn retry(&mut self) -> Result<(), AllocError>
        requires fails { self.old.machine.mode ≡ Mode.Back Outcome.Fail }
        requires call { HasClauses self.old.machine.stack }
        requires begun { (P : Given) × IsBegun P self.old.machine }
        ensures ok { OnOk result ((P : Given) → IsBegun P self.old.machine → Quiet P self.old self.new) }
        ensures err { OnErr result ((P : Given) → IsBegun P self.old.machine → Stays P self.old self.new) }
        ensures walks { EndsWalks self.old.machine.stack self.new.machine.stack }
    {
        if self.machine.stack.retry()? {
            self.machine.mode = Mode::Visit;
        }
        Ok(())
    }

    /// The next answer of the innermost case, a call of a predicate of several answers.
    #[tactic(auto, using(crate::proofs::Ending::ends_same, crate::proofs::Ending::ends_refl))]
    fn retry_answers(&mut self) -> Result<(), AllocError>
        requires fails { self.old.machine.mode ≡ Mode.Back Outcome.Fail }
        requires call { HasAnswers self.old.machine.stack }
        ensures ok { OnOk result ((P : Given) → Quiet P self.old self.new) }
        ensures err { OnErr result ((P : Given) → Stays P self.old self.new) }
        ensures walks { EndsWalks self.old.machine.stack self.new.machine.stack }
    {
        if self.machine.stack.retry_answers(self.machine.alloc)? {
            self.machine.mode = Mode::Visit;
        }
        Ok(())
    }

    /// Closes the innermost case, which has no part in the result; without one the search is over.
    #[tactic(auto, using(crate::proofs::Ending::ends_same, crate::proofs::Ending::ends_refl))]
    fn close(&mut self) -> Option<Pause>
        requires back { IsBack self.old }
        requires undone { HasUndo self.old.machine.stack → ⊥ }
        requires tried { self.old.machine.mode ≡ Mode.Back Outcome.Fail → HasChoice self.old.machine.stack → ⊥ }
        requires walked { self.old.machine.mode ≡ Mode.Back Outcome.Fail → HasWalk self.old.machine.stack → ⊥ }
        requires caught { HasCatcher self.old.machine.stack → throws_to (depth_of self.old.machine - 1) self.old.machine.mode ≡ true → ⊥ }
        requires gathered { HasGatherer self.old.machine.stack → self.old.machine.mode ≡ Mode.Back Outcome.Fail → ⊥ }
        ensures on { IfNone result ((P : Given) → Quiet P self.old self.new) }
        ensures due { IfSome result (λ pause. ((P : Given) → PausesAt P self.new pause) × (self.new ≡ self.old)) }
        ensures walks { EndsWalks self.old.machine.stack self.new.machine.stack }
    {
        match self.machine.stack.close() {
            Some(_) => None,
            None => Some(Pause::Over),
        }
    }

    /// Whether a ball is carried to the innermost case, and that is a catcher that is active.
    fn catches(&self) -> bool
        requires of { (P : Given) × IsOf P self.now.machine }
        ensures { (db : Database) → IsTrue result ↔ (HasCatcher self.now.machine.stack × (throws_to (deeper (cases_of db self.now.machine.stack) 0 - 1) self.now.machine.mode ≡ true)) }
    {
        if !self.machine.stack.is_catcher() {
            return false;
        }
        match &self.machine.mode {
            Mode::Back(Outcome::Throw(_, levels)) => has_level(levels, self.machine.stack.level()),
            Mode::Visit
            | Mode::Ask(_)
            | Mode::Find(_)
            | Mode::Back(Outcome::Stop)
            | Mode::Back(Outcome::Fail)
            | Mode::Back(Outcome::Halted(_))
            | Mode::Back(Outcome::Spent) => false,
        }
    }

    fn fails(&self) -> bool
        ensures { IsTrue result ↔ (self.now.machine.mode ≡ Mode.Back Outcome.Fail) }
    {
        matches!(self.machine.mode, Mode::Back(Outcome::Fail))
    }

    /// Whether the innermost case is a choice that may have a place left.
    fn is_choice(&self) -> bool
        ensures { IsTrue result ↔ HasChoice self.now.machine.stack }
    {
        let stack = &self.machine.stack;
        stack.is_branch() || stack.is_clauses() || stack.is_answers()
    }
}

/// What is due where the search pauses.
fn paused(pause: Option<Pause>) -> Option<Due>
    ensures { result ≡ option_map Due.Paused pause }
{
    match pause {
        Some(pause) => Some(Due::Paused(pause)),
        None => None,
    }
}

/// Whether a level is among those of a ball, which never rise.
fn has_level(levels: &[Level], level: Level) -> bool
    requires falls { AllPairs (λ k l. l ≤ k) levels.now }
    ensures { result ≡ has level levels.now }
{
    let place = place_of(levels, level);
    match levels.get(place) {
        Some(found) => *found == level,
        None => false,
    }
}

/// Where the levels of a ball that are not above a level begin.
fn place_of(levels: &[Level], level: Level) -> usize
    requires falls { AllPairs (λ k l. l ≤ k) levels.now }
    ensures within { result ≤ length levels.now }
    ensures point { IsPartitionPoint (λ k. nat_lt level k ≡ true) (λ k. nat_lt level k ≡ false) levels.now result }
{
    levels.partition_point(|found| *found > level)
}
