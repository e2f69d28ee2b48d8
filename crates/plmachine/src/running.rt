//! The rows of the constructs that run a term as a goal: once/1, `\+`/1, catch/3 and call/N (ISO/IEC 13211-1 7.8, 8.15).
//!
//! A row that is refused memory leaves the search where it was.
ghost use Rattle.std.specs.Prelude.{◌≡◌, ◌<◌, ◌≤◌, suc, List, [], ◌∷◌, ◌++◌, length, map, IfOk, OnOk, OnErr};
ghost use Rattle.plterm.specs.Variables.{copied};
ghost use Rattle.plcells.specs.declared.cell.Cell.{Cell as OfCell};
ghost use Rattle.plcells.specs.Store.{value, IsValue, AreValues};
ghost use Rattle.plerror.specs.Errors.{callable_error, error_term};
ghost use Rattle.plsearch.specs.Types.{Choice, Commit, Goal, Marker, Never, Until, Raise, Go};
ghost use Rattle.plsearch.specs.Running.{called, runnable};
ghost use Rattle.plsearch.specs.Moves.{run as runs};
ghost use Rattle.plsearch.specs.Rows.{once_1, not_1, catch_3, call_with as call_n, catching, branch};
ghost use Rattle.plstack.specs.Levels.{kinds, Precedes};
ghost use Rattle.plstack.specs.State.{goals_of, kinds_in, IsFit, IsList};
ghost use Rattle.plstack.specs.Opening.{around_cases, IsAround};
ghost use Rattle.plmachine.specs.Lists.{elements_of, Grown, Holds, IsPart};
ghost use Rattle.plrefusals.specs.Predicates.{predicate_of};
ghost use Rattle.plmachine.specs.Running.{ready_as, IsReady, IsRunning, Readies};
ghost use Rattle.plmachine.specs.Machine.{depth_of, local_of, Moved, Stays};
ghost use Rattle.plprogram.specs.Program.{Program as Given};

use crate::machine::{Machine, Outcome};
use planswers::list::is_variable;
use plcells::cell::Cell;
use plerror::error;
use plgoals::extend::Extended;
use pllinks::item::{MarkerKind, Portion};
use pllinks::level::Level;
use pllinks::link::Continuation;
use plrefusals::predicate::Predicate;
use plstack::frame::{Around, Catcher, Handler, Handling};
use plterm::term::Term;
use std::alloc::AllocError;

/// A term that is to be run as a goal.
#[derive(Drop)]
pub enum Ready {
    /// It is the goal of a value.
    Runs(Cell),
    /// It is none: the error.
    Raises(Term),
}

/// How a term is run as a goal: by a predicate, in some cases, at a cut level of its own, before a list.
#[derive(Clone, Copy)]
pub struct Running {
    pub predicate: Predicate,
    pub around: Around,
    pub level: Level,
    pub list: Continuation,
}

impl Machine {
    /// A term is run as a goal.
    #[inline(never)]
    pub fn run(&mut self, ready: Ready, how: Running) -> Result<(), AllocError>
        requires ready { IsReady self.old.stack ready }
        requires how { IsRunning self.old.stack how }
        ensures ok { (P : Given) → OnOk result (Moved P self.old self.new (runs (ready_as self.old.stack ready) (predicate_of how.predicate) (around_cases self.old.stack how.around) how.level (goals_of self.old.stack how.list) self.old.stack.env.count (local_of self.old))) }
        ensures err { (P : Given) → OnErr result (Stays P self.old self.new) }
    {
        match ready {
            Ready::Raises(error) => self.raise_in(error, how),
            Ready::Runs(goal) => { self.enter_goal(how.level, goal, how.list, how.around) }
        }
    }

    /// Opens a choice with nothing left in other cases, and visits a goal of a cut level before a list in it.
    fn enter_goal(
        &mut self,
        level: Level,
        goal: Cell,
        list: Continuation,
        around: Around,
    ) -> Result<(), AllocError>
        requires goal { IsValue self.old.stack.env.heap goal }
        requires list { IsList self.old.stack list }
        requires around { IsAround self.old.stack around }
        requires level { Precedes (kinds (Choice [] ∷ around_cases self.old.stack around) ++ kinds_in self.old.stack) level (goals_of self.old.stack list) }
        ensures ok { (P : Given) → OnOk result (Moved P self.old self.new (Go (Choice [] ∷ around_cases self.old.stack around) (record { goals = Goal level (value self.old.stack.env.heap goal) ∷ goals_of self.old.stack list; variables = self.old.stack.env.count }) (local_of self.old))) }
        ensures err { (P : Given) → OnErr result (Stays P self.old self.new) }
    {
        let list = self.stack.link(Portion::Goal(level, goal), list)?;
        self.enter(list, around)
    }

    /// Opens a choice with nothing left in other cases, and raises an error of a predicate before a list in it.
    fn raise_in(&mut self, error: Term, how: Running) -> Result<(), AllocError>
        requires { IsRunning self.old.stack how }
        ensures ok { (P : Given) → OnOk result (Moved P self.old self.new (Go (Choice [] ∷ around_cases self.old.stack how.around) (record { goals = Raise (copied 0 (error_term error (predicate_of how.predicate))) ∷ goals_of self.old.stack how.list; variables = self.old.stack.env.count }) (local_of self.old))) }
        ensures err { (P : Given) → OnErr result (Stays P self.old self.new) }
    {
        let p = how.predicate.indicator(self.alloc)?;
        let ball = error::ball(self.alloc, error, &p)?;
        let levels = self.stack.levels(self.alloc, how.list)?;
        self.stack.open_run(how.around)?;
        self.give(Outcome::Throw(ball, levels));
        Ok(())
    }

    /// once/1.
    #[inline(never)]
    pub fn once(&mut self, goal: Cell, rest: Continuation) -> Result<(), AllocError>
        requires goal { IsValue self.old.stack.env.heap goal }
        requires rest { IsList self.old.stack rest }
        requires fits { IsFit self.old.stack rest }
        ensures ok { (P : Given) → OnOk result (Moved P self.old self.new (runs (runnable (value self.old.stack.env.heap goal)) once_1 [] (depth_of self.old) (Marker Commit (depth_of self.old) ∷ goals_of self.old.stack rest) self.old.stack.env.count (local_of self.old))) }
        ensures err { (P : Given) → OnErr result (Stays P self.old self.new) }
    {
        let depth = self.stack.depth();
        let marker = Portion::Marker(MarkerKind::Commit, depth);
        let (ready, list) = self.ready_before(goal, marker, &rest)?;
        let how = Running {
            predicate: Predicate::Once,
            around: Around::Nothing,
            level: depth,
            list,
        };
        self.run(ready, how)
    }

    /// `\+`/1.
    #[inline(never)]
    pub fn not(&mut self, goal: Cell, rest: Continuation) -> Result<(), AllocError>
        requires goal { IsValue self.old.stack.env.heap goal }
        requires rest { IsList self.old.stack rest }
        requires fits { IsFit self.old.stack rest }
        ensures ok { (P : Given) → OnOk result (Moved P self.old self.new (runs (runnable (value self.old.stack.env.heap goal)) not_1 (branch (goals_of self.old.stack rest) self.old.stack.env.count ∷ []) (suc (depth_of self.old)) (Marker Never (depth_of self.old) ∷ goals_of self.old.stack rest) self.old.stack.env.count (local_of self.old))) }
        ensures err { (P : Given) → OnErr result (Stays P self.old self.new) }
    {
        let depth = self.stack.depth();
        let Some(level) = depth.up(1) else {
            return Err(AllocError);
        };
        let marker = Portion::Marker(MarkerKind::Never, depth);
        let (ready, list) = self.ready_before(goal, marker, &rest)?;
        let how = Running {
            predicate: Predicate::Not,
            around: Around::Branch(rest),
            level,
            list,
        };
        self.run(ready, how)
    }

    /// catch/3 of a goal, with a catcher and a recovery.
    #[inline(never)]
    pub fn catching(
        &mut self,
        goal: Cell,
        catcher: Catcher,
        rest: Continuation,
    ) -> Result<(), AllocError>
        requires goal { IsValue self.old.stack.env.heap goal }
        requires catcher { IsValue self.old.stack.env.heap catcher.catcher }
        requires recovery { IsValue self.old.stack.env.heap catcher.recovery }
        requires rest { IsList self.old.stack rest }
        requires fits { IsFit self.old.stack rest }
        ensures ok { (P : Given) → OnOk result (Moved P self.old self.new (runs (runnable (value self.old.stack.env.heap goal)) catch_3 (catching (value self.old.stack.env.heap catcher.catcher) (value self.old.stack.env.heap catcher.recovery) (goals_of self.old.stack rest) self.old.stack.env.count ∷ []) (suc (depth_of self.old)) (Marker Until (depth_of self.old) ∷ goals_of self.old.stack rest) self.old.stack.env.count (local_of self.old))) }
        ensures err { (P : Given) → OnErr result (Stays P self.old self.new) }
    {
        let depth = self.stack.depth();
        let Some(level) = depth.up(1) else {
            return Err(AllocError);
        };
        let marker = Portion::Marker(MarkerKind::Until, depth);
        let (ready, list) = self.ready_before(goal, marker, &rest)?;
        let how = Running {
            predicate: Predicate::Catch,
            around: Around::Handle(Handling {
                handler: Handler::Catch(catcher),
                list: rest,
            }),
            level,
            list,
        };
        self.run(ready, how)
    }

    /// call/N: the goal is the first argument, and its further arguments stand behind it.
    #[inline(never)]
    pub fn call_with(&mut self, rest: Continuation) -> Result<(), AllocError>
        requires args { AreValues self.old.stack.env.heap self.old.args.items }
        requires some { 0 < length self.old.args.items }
        requires few { length self.old.args.items ≤ 1024 }
        requires rest { IsList self.old.stack rest }
        requires fits { IsFit self.old.stack rest }
        ensures ok { (P : Given) → (v : OfCell) (vs : List OfCell) → self.old.args.items ≡ v ∷ vs → OnOk result (Moved P self.old self.new (runs (called (value self.old.stack.env.heap v) (map (value self.old.stack.env.heap) vs)) (call_n (length vs)) [] (depth_of self.old) (goals_of self.old.stack rest) self.old.stack.env.count (local_of self.old))) }
        ensures err { (P : Given) → OnErr result (Stays P self.old self.new) }
    {
        let level = self.stack.depth();
        let further = self.args.len() as u16 - 1;
        let ready = self.ready_with()?;
        let how = Running {
            predicate: Predicate::CallWith(further),
            around: Around::Nothing,
            level,
            list: rest,
        };
        self.run(ready, how)
    }

    /// What a term comes to as a goal, and a new list: a marker before a list that is there.
    pub(crate) fn ready_before(
        &mut self,
        goal: Cell,
        marker: Portion,
        rest: &Continuation,
    ) -> Result<(Ready, Continuation), AllocError>
        requires goal { IsValue self.old.stack.env.heap goal }
        requires marker { IsPart self.old.stack marker }
        requires rest { IsList self.old.stack rest.now }
        ensures ready { IfOk result (λ r. Readies self.new.stack (runnable (value self.old.stack.env.heap goal)) r.0) }
        ensures list { IfOk result (λ r. Holds self.new.stack r.1 (elements_of self.old.stack marker ++ goals_of self.old.stack rest.now)) }
        ensures grown { Grown self.old.stack self.new.stack }
        ensures frame { self.new ≡ record self.old { stack = self.new.stack } }
    {
        let list = self.stack.link(marker, *rest)?;
        let ready = self.ready(&goal)?;
        Ok((ready, list))
    }

    /// What a term comes to as a goal.
    pub fn ready(&mut self, goal: &Cell) -> Result<Ready, AllocError>
        requires { IsValue self.old.stack.env.heap goal.now }
        ensures ok { IfOk result (λ r. Readies self.new.stack (runnable (value self.old.stack.env.heap goal.now)) r) }
        ensures grown { Grown self.old.stack self.new.stack }
        ensures frame { self.new ≡ record self.old { stack = self.new.stack } }
    {
        if is_variable(self.stack.env().heap(), goal) {
            let error = error::instantiation_error(self.alloc)?;
            return Ok(Ready::Raises(error));
        }
        match self.stack.goal_of(self.alloc, *goal)? {
            Some(made) => Ok(Ready::Runs(made)),
            None => {
                let error = self.no_callable(*goal)?;
                Ok(Ready::Raises(error))
            }
        }
    }

    /// The error of a term that is not callable.
    fn no_callable(&self, v: Cell) -> Result<Term, AllocError>
        requires { IsValue self.now.stack.env.heap v }
        ensures { IfOk result (λ e. e ≡ callable_error (value self.now.stack.env.heap v)) }
    {
        let culprit = self.stack.env().heap().take(self.alloc, v)?;
        error::type_error(self.alloc, "callable", culprit)
    }

    /// What the first argument comes to as a goal once the others are added to it as its further arguments.
    fn ready_with(&mut self) -> Result<Ready, AllocError>
        requires args { AreValues self.old.stack.env.heap self.old.args.items }
        requires some { 0 < length self.old.args.items }
        requires few { length self.old.args.items ≤ 1024 }
        ensures ok { IfOk result (λ r. (v : OfCell) (vs : List OfCell) → self.old.args.items ≡ v ∷ vs → Readies self.new.stack (called (value self.old.stack.env.heap v) (map (value self.old.stack.env.heap) vs)) r) }
        ensures grown { Grown self.old.stack self.new.stack }
        ensures frame { self.new ≡ record self.old { stack = self.new.stack } }
    {
        let goal = self.args[0];
        if self.args.len() == 1 {
            return self.ready(&goal);
        }
        match self
            .stack
            .with_arguments(self.alloc, goal, &self.args[1..])?
        {
            Extended::Is(made) => self.ready(&made),
            Extended::Unbound => {
                let error = error::instantiation_error(self.alloc)?;
                Ok(Ready::Raises(error))
            }
            Extended::Number => {
                let error = self.no_callable(self.args[0])?;
                Ok(Ready::Raises(error))
            }
            Extended::TooLong => {
                let error = error::representation_error(self.alloc, "max_arity")?;
                Ok(Ready::Raises(error))
            }
        }
    }
}
