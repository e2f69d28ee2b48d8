//! How far a search has come, and how it goes on.

ghost use Rattle.std.specs.Prelude.{◌≡◌, ℕ, ◌+◌, ◌<◌, ◌≤◌, [], IfOk, OnOk, OnErr};
ghost use Rattle.plprogram.specs.Program.{Program as Given};
ghost use Rattle.pllinks.specs.declared.item.MarkerKind.{MarkerKind as OfKind};
ghost use Rattle.pllinks.specs.declared.link.Continuation.{Continuation as Continued};
ghost use Rattle.plstack.specs.declared.first.First.TheVariants as firsts;
ghost use Rattle.plstack.specs.State.{walks_in, EndsWalks};
ghost use Rattle.plstore.specs.Looking.{Views};
ghost use Rattle.plsearch.specs.Search.{search_of};
ghost use Rattle.plsearch.specs.Solving.{Begins};
ghost use Rattle.plmachine.specs.Machine.{IsPlain};
ghost use Rattle.plsolver.specs.Advancing.{AdvancesInPart, AdvancesTo, SettlesTo, StepsOn, StepsTo};
ghost use Rattle.plsolver.specs.Asking.{activations, in_cases, Further, Onward};
ghost use Rattle.plsolver.specs.declared.progress.Selected.TheVariants as TheSelected;
ghost use Rattle.plsolver.specs.Solver.{first_of, GoesTo, IsOf, IsSelected, IsSharedOf, Selects, Stays, latest_view, rest_of, Settled, start_given};
ghost use Rattle.plsolver.specs.Says.{Says, IsSlice};

use crate::shared::Shared;
use crate::solver::{Start, Turn};
use crate::start::start;
use plcells::cell::Cell;
use plcode::op::Step;
use plevent::JournalPlace;
use pllinks::item::ClauseGoals;
use pllinks::level::Level;
use pllinks::link::Continuation;
use plmachine::machine::Machine;
use plprogram::program::Program;
use plstack::first::First;
use std::alloc::{AllocError, Global};

/// How far a search has come.
#[derive(Drop)]
pub struct Progress {
    pub machine: Machine,
    /// The steps taken.
    pub used: u64,
    /// The most steps.
    pub limit: u64,
    /// The places of the answers taken.
    pub places: Vec<JournalPlace>,
}

/// A goal that is to be selected: the first of the visited list.
#[derive(Clone, Copy)]
pub enum Selected {
    /// A conjunction of a clause's body: the list in which its two goals stand in its place, and the step that its run begins with.
    Both(Continuation, Step),
    /// Any other goal of a clause's body: the run that begins with it, its step, and the list behind it.
    Step(ClauseGoals, Step, Continuation),
    /// A goal that is a term: its cut level, its value, and the list behind it.
    Goal(Level, Cell, Continuation),
}

/// What is due.
#[derive(Clone, Copy)]
pub enum Due {
    /// A goal is to be selected.
    Goal(Selected),
    /// Nothing can be done before something else is, or the search has ended.
    Paused(Pause),
}

/// Why a search pauses.
#[derive(Clone, Copy)]
pub enum Pause {
    /// A look-up, or what begins on a view, waits for it.
    Look,
    /// A look-up or a walk asks something in its view.
    Fetch,
    /// A request waits for its reply.
    Await,
    /// The search has ended.
    Over,
}

impl Progress {
    /// The search from a start: its goals in order, each once, with at most so many steps.
    pub fn new(
        alloc: Global,
        shared: &Shared,
        program: &Program,
        given: Start,
        limit: u64,
    ) -> Result<Self, AllocError>
        requires { IsSharedOf program.now shared.now }
        ensures begins { IfOk result (λ s. (v : Views) → Begins (search_of program.now (start_given program.now given) limit) (rest_of program.now v s) s.used) }
        ensures of { IfOk result (λ s. IsOf program.now s.machine) }
        ensures latest { IfOk result (λ s. latest_view s ≡ 0) }
        ensures limit { IfOk result (λ s. s.limit ≡ limit) }
        ensures places { IfOk result (λ s. s.places.items ≡ []) }
        ensures walks { IfOk result (λ s. walks_in s.machine.stack ≡ []) }
    {
        let machine = start(alloc, shared, program, given)?;
        Ok(Progress {
            machine,
            used: 0,
            limit,
            places: Vec::new(alloc),
        })
    }

    /// Goes on until something is asked, the search ends, or so many steps are taken.
    #[tactic(auto, using(crate::proofs::Runs::goes_on, crate::proofs::Runs::goes_nowhere, crate::proofs::Runs::stays_goes, crate::proofs::Runs::stays_of, crate::proofs::Advancing::advances_nowhere))]
    pub fn advance(&mut self, program: &Program, fuel: u64) -> Result<Turn, AllocError>
        requires within { self.old.used ≤ self.old.limit }
        requires of { IsOf program.now self.old.machine }
        ensures goes { GoesTo program.now self.old self.new }
        ensures of { IsOf program.now self.new.machine }
        ensures latest { latest_view self.new ≡ latest_view self.old }
        ensures limit { self.new.limit ≡ self.old.limit }
        ensures places { self.new.places.items ≡ self.old.places.items }
        ensures fuel { self.new.used ≤ self.old.used + fuel }
        ensures slice { IfOk result (λ turn. IsSlice turn → self.new.used ≡ self.old.used + fuel) }
        ensures says { IfOk result (λ turn. Says program.now self.new turn) }
        ensures walks { AdvancesInPart program.now self.old self.new }
        ensures advances { IfOk result (λ turn. AdvancesTo program.now self.old self.new) }
    {
        let until = self.steps_with(fuel);
        loop {
            let due = self.settle(program)?;
            let selected = match due {
                Due::Goal(selected) => selected,
                Due::Paused(pause) => return self.told(pause),
            };
            // (a type that stands deep in a variable's is known to the borrow checker's plan of a loop where a variable has it)
            if let Selected::Goal(_, value, _) = &selected {
                let _value: Cell = *value;
            }
            if self.used == until {
                return Ok(Turn::Slice);
            }
            let selected = self.past_conjunction(selected, until);
            self.step(program, selected)?;
        }
    }

    /// Takes the step of a conjunction that is due, if one more is left behind it: the goal that is due then.
    #[tactic(auto, using(crate::proofs::Runs::goes_nowhere))]
    #[inline(always)]
    fn past_conjunction(&mut self, selected: Selected, until: u64) -> Selected
        requires first { IsSelected self.old.machine selected }
        requires left { self.old.used < until }
        requires within { until ≤ self.old.limit }
        ensures first { IsSelected self.new.machine result }
        ensures left { self.new.used < until }
        ensures rises { self.old.used ≤ self.new.used }
        ensures goes { (P : Given) → GoesTo P self.old self.new }
        ensures of { (P : Given) → IsOf P self.old.machine → IsOf P self.new.machine }
        ensures latest { latest_view self.new ≡ latest_view self.old }
        ensures limit { self.new.limit ≡ self.old.limit }
        ensures places { self.new.places.items ≡ self.old.places.items }
        ensures steps { StepsOn self.old self.new }
    {
        if self.used + 1 == until {
            return selected;
        }
        match &selected {
            Selected::Both(next, step) => self.pass_both(*next, *step),
            Selected::Step(_, _, _) => selected,
            Selected::Goal(_, _, _) => selected,
        }
    }

    /// Takes the step of a conjunction, by the list in which its goals stand in its place and the step that its run begins with: the goal that is
    /// due then.
    #[inline(always)]
    fn pass_both(&mut self, next: Continuation, step: Step) -> Selected
        requires first { IsSelected self.old.machine (TheSelected.Both next step) }
        requires within { self.old.used + 1 ≤ self.old.limit }
        ensures first { IsSelected self.new.machine result }
        ensures frame { self.new ≡ record self.old { machine = self.new.machine; used = self.old.used + 1 } }
        ensures of { (P : Given) → IsOf P self.old.machine → IsOf P self.new.machine }
        ensures latest { latest_view self.new ≡ latest_view self.old }
        ensures steps { (P : Given) → StepsTo P self.old self.new }
    {
        self.machine.stack.visit(next);
        self.used += 1;
        let first = self.machine.stack.first_of_step(step);
        selected_of(first)
    }

    /// How many steps there are once so much fuel is used, or all that may be taken.
    fn steps_with(&self, fuel: u64) -> u64
        requires within { self.now.used ≤ self.now.limit }
        ensures from { self.now.used ≤ result }
        ensures within { result ≤ self.now.limit }
        ensures few { result ≤ self.now.used + fuel }
        ensures all { result < self.now.limit → result ≡ self.now.used + fuel }
    {
        let room = self.limit - self.used;
        if fuel < room {
            self.used + fuel
        } else {
            self.limit
        }
    }

    /// Selects the goal that is due, and gives back the goal lists and slots that nothing holds then.
    #[tactic(auto, using(crate::proofs::Ending::ends_same, crate::proofs::Ending::ends_refl))]
    fn step(&mut self, program: &Program, selected: Selected) -> Result<(), AllocError>
        requires of { IsOf program.now self.old.machine }
        requires goal { IsSelected self.old.machine selected }
        requires left { self.old.used + 1 ≤ self.old.limit }
        ensures ok { OnOk result (StepsTo program.now self.old self.new) }
        ensures of { IsOf program.now self.new.machine }
        ensures latest { latest_view self.new ≡ latest_view self.old }
        ensures err { OnErr result (Stays program.now self.old self.new) }
        ensures walks { EndsWalks self.old.machine.stack self.new.machine.stack }
    {
        let depth = self.machine.stack.depth();
        self.select(program, &selected)?;
        self.used += 1;
        self.give_back(&selected, depth);
        Ok(())
    }

    /// Gives back goal lists and slots that nothing holds, once a goal was selected, at whose selection cases were open up to a level. A
    /// conjunction leaves none, and what a goal leaves behind which its clause goes on in as many cases waits for the clause's next call.
    fn give_back(&mut self, selected: &Selected, depth: Level)
        ensures stays { (P : Given) → Stays P self.old self.new }
        ensures mode { self.new.machine.mode ≡ self.old.machine.mode }
    {
        match selected {
            Selected::Both(_, _) => return,
            Selected::Step(run, _, rest) => {
                if self.machine.stack.goes_on(rest, run.end, depth) {
                    return;
                }
            }
            Selected::Goal(_, _, _) => {}
        }
        self.machine.stack.give_back();
    }

    /// Selects the goal that is due.
    #[tactic(auto, using(crate::proofs::Ending::ends_same, crate::proofs::Ending::ends_refl))]
    fn select(&mut self, program: &Program, selected: &Selected) -> Result<(), AllocError>
        requires of { IsOf program.now self.old.machine }
        requires goal { IsSelected self.old.machine selected.now }
        ensures ok { OnOk result (Selects program.now self.old.machine self.new.machine) }
        ensures of { IsOf program.now self.new.machine }
        ensures latest { latest_view self.new ≡ latest_view self.old }
        ensures frame { self.new ≡ record self.old { machine = self.new.machine } }
        ensures err { OnErr result (Stays program.now self.old self.new) }
        ensures walks { EndsWalks self.old.machine.stack self.new.machine.stack }
    {
        match selected {
            Selected::Both(next, _) => {
                self.machine.stack.visit(*next);
                Ok(())
            }
            Selected::Step(run, step, rest) => self.machine.step(program, *run, *step, *rest),
            Selected::Goal(level, goal, rest) => self.machine.term(program, *level, *goal, *rest),
        }
    }

    /// Goes on without a step, up to what is due.
    #[tactic(auto, using(crate::proofs::Runs::goes_on))]
    #[inline(always)]
    fn settle(&mut self, program: &Program) -> Result<Due, AllocError>
        requires within { self.old.used ≤ self.old.limit }
        requires of { IsOf program.now self.old.machine }
        ensures goes { GoesTo program.now self.old self.new }
        ensures of { IsOf program.now self.new.machine }
        ensures latest { latest_view self.new ≡ latest_view self.old }
        ensures used { self.new.used ≡ self.old.used }
        ensures limit { self.new.limit ≡ self.old.limit }
        ensures places { self.new.places.items ≡ self.old.places.items }
        ensures due { IfOk result (λ due. Settled program.now self.new due) }
        ensures walks { Onward 0 (activations self.old.machine) (in_cases self.new.machine.stack) }
        ensures settles { IfOk result (λ due. SettlesTo program.now self.old self.new) }
    {
        if let Some(pause) = self.find()? {
            return Ok(Due::Paused(pause));
        }
        self.go_quietly(program)
    }

    /// Quiet turns, up to what is due, where nothing is sought.
    #[tactic(auto, using(crate::proofs::Runs::quiet_goes, crate::proofs::Runs::quiet_lighter, crate::proofs::Runs::quiet_of, crate::proofs::Runs::goes_on, crate::proofs::Runs::goes_nowhere, crate::proofs::Runs::stays_goes, crate::proofs::Runs::stays_of, crate::proofs::Further::further_refl, crate::proofs::Further::further_trans))]
    fn go_quietly(&mut self, program: &Program) -> Result<Due, AllocError>
        requires within { self.old.used ≤ self.old.limit }
        requires of { IsOf program.now self.old.machine }
        requires plain { IsPlain self.old.machine.mode }
        ensures goes { GoesTo program.now self.old self.new }
        ensures of { IsOf program.now self.new.machine }
        ensures latest { latest_view self.new ≡ latest_view self.old }
        ensures used { self.new.used ≡ self.old.used }
        ensures limit { self.new.limit ≡ self.old.limit }
        ensures places { self.new.places.items ≡ self.old.places.items }
        ensures due { IfOk result (λ due. Settled program.now self.new due) }
        ensures walks { Further self.old.machine.stack self.new.machine.stack }
        ensures plain { IsPlain self.new.machine.mode }
    {
        loop {
            match self.quiet_turn(program)? {
                None => {}
                Some(due) => return Ok(due),
            }
        }
    }
}

/// The goal that stands first.
#[inline(always)]
fn selected_of(first: First) -> Selected
    requires some { first ≡ firsts.Nothing → ⊥ }
    requires goal { (kind : OfKind) (level : ℕ) (rest : Continued) → first ≡ firsts.Marker kind level rest → ⊥ }
    ensures { first_of result ≡ first }
{
    match first {
        First::Both(next, step) => Selected::Both(next, step),
        First::Step(run, step, rest) => Selected::Step(run, step, rest),
        First::Goal(level, v, rest) => Selected::Goal(level, v, rest),
        First::Nothing => unreachable!(),
        First::Marker(_, _, _) => unreachable!(),
    }
}
