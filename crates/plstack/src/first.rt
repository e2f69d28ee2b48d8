//! What stands first in the visited list.
ghost use Rattle.std.specs.Prelude.{◌≡◌, [], IfSome, IfNone};
ghost use Rattle.pllinks.specs.Lists.{run_goals};
ghost use Rattle.plstack.specs.State.{goals_in, goals_of, IsEmptyOrFit, IsList, IsState};
ghost use Rattle.plstack.specs.First.{Begins, IsFirst, IsShort, IsStep};

use crate::stack::Stack;
use plcells::cell::Cell;
use plcode::op::{Op, Step};
use pllinks::item::{ClauseGoals, MarkerKind, Portion};
use pllinks::level::Level;
use pllinks::link::{Continuation, first_link};

/// What stands first in a goal list.
#[derive(Clone, Copy)]
pub enum First {
    /// The list is empty.
    Nothing,
    /// A conjunction of a clause's body: the list in which its two goals stand in its place, and the step that its run begins with.
    Both(Continuation, Step),
    /// Any other goal of a clause's body: the run that begins with it, its step, and the list behind it.
    Step(ClauseGoals, Step, Continuation),
    /// A goal that is a term: its cut level, its value, and the list behind it.
    Goal(Level, Cell, Continuation),
    /// A marker, its level, and the list behind it.
    Marker(MarkerKind, Level, Continuation),
}

impl Stack {
    /// What stands first in the visited list.
    pub fn first(&self) -> First
        ensures { IsFirst self.now result }
    {
        let mut list = self.goals;
        loop {
            if let Some(step) = self.step_of(list.run) {
                return self.first_of_run(list, step);
            }
            let Some(link) = first_link(&self.links, list.rest) else {
                return First::Nothing;
            };
            let behind = Continuation::alone(link.next);
            match &link.item {
                Portion::Clause(run) => {
                    list = Continuation {
                        run: *run,
                        rest: link.next,
                    };
                }
                Portion::Goal(level, v) => return First::Goal(*level, *v, behind),
                Portion::Marker(kind, level) => return First::Marker(*kind, *level, behind),
            }
        }
    }

    /// What stands first in the visited list, whose run begins with a step.
    #[inline(always)]
    pub fn first_of_step(&self, step: Step) -> First
        requires { IsStep self.now.basis.code.text self.now.goals.run.position step }
        ensures { IsFirst self.now result }
    {
        self.first_of_run(self.goals, step)
    }

    /// The step that a run begins with; none where it is at its end.
    fn step_of(&self, run: ClauseGoals) -> Option<Step>
        ensures some { IfSome result (λ x. IsStep self.now.basis.code.text run.position x) }
        ensures none { IfNone result (run_goals (goals_in self.now) run ≡ []) }
        ensures state { IsState self.now }
    {
        let step = self.basis.code.code().step(run.position);
        if let Op::Proceed = step.op {
            return None;
        }
        Some(step)
    }

    /// What stands first in a list whose run begins with a step.
    fn first_of_run(&self, list: Continuation, step: Step) -> First
        requires list { IsList self.now list }
        requires fits { IsEmptyOrFit self.now list }
        requires step { IsStep self.now.basis.code.text list.run.position step }
        ensures { Begins self.now (goals_of self.now list) result }
    {
        let Continuation { run, rest } = list;
        if run.owed < step.conjunctions {
            let next = ClauseGoals {
                owed: run.owed + 1,
                ..run
            };
            return First::Both(Continuation { run: next, rest }, step);
        }
        let behind = ClauseGoals {
            position: run.position - 1,
            owed: 0,
            ..run
        };
        First::Step(run, step, self.settled(Continuation { run: behind, rest }))
    }

    /// A list of the same goals, whose run is not at its end, if it has one.
    fn settled(&self, list: Continuation) -> Continuation
        requires { IsList self.now list }
        ensures there { IsList self.now result }
        ensures same { goals_of self.now result ≡ goals_of self.now list }
        ensures short { IsShort self.now result }
    {
        match self.step_of(list.run) {
            Some(_) => list,
            None => Continuation::alone(list.rest),
        }
    }
}
