//! A goal of a clause's body that is selected, by its step (ISO/IEC 13211-1 7.7.7).
ghost use Rattle.std.specs.Prelude.{◌≡◌, List, OnOk, OnErr};
ghost use Rattle.plsearch.specs.Types.{Element};
ghost use Rattle.plsearch.specs.Forms.{form as form_by_term};
ghost use Rattle.plsearch.specs.Rows.{row};
ghost use Rattle.plstack.specs.First.{AtStep};
ghost use Rattle.plstack.specs.State.{goals_of};
ghost use Rattle.plmachine.specs.Calculating.{IsArithmetic, NeedsNoCell};
ghost use Rattle.plmachine.specs.Machine.{below_in, depth_of, local_of, IsBegun, IsTied, MovedBy, Stays};
ghost use Rattle.plmachine.specs.Selected.{bound_at};

use crate::list::branch;
use crate::machine::{Machine, Mode};
use crate::select::Source;
use plcode::op::{Op, Step};
use pllinks::item::ClauseGoals;
use pllinks::link::Continuation;
use plprogram::program::Program;
use std::alloc::AllocError;

impl Machine {
    /// The row of a goal of a clause's body, by its step, with the slots of a run for its variables. One of an arithmetic predicate that needs
    /// no cell leaves the heap as it is.
    pub fn step(
        &mut self,
        program: &Program,
        run: ClauseGoals,
        step: Step,
        rest: Continuation,
    ) -> Result<(), AllocError>
        requires begun { IsBegun program.now self.old }
        requires visits { self.old.mode ≡ Mode.Visit }
        requires at { (es : List Element) × AtStep self.old.stack es run step rest }
        requires tied { IsTied self.old }
        ensures ok { (es : List Element) (at : AtStep self.old.stack es run step rest) → OnOk result (MovedBy program.now self.old self.new (λ v. row program.now (below_in v self.old) (form_by_term (bound_at self.old.stack run at.goal)) run.level (bound_at self.old.stack run at.goal) (depth_of self.old) (goals_of self.old.stack rest) self.old.stack.env.count (local_of self.old))) }
        ensures err { OnErr result (Stays program.now self.old self.new) }
        ensures heap { (es : List Element) (at : AtStep self.old.stack es run step rest) (a : IsArithmetic at.goal) → NeedsNoCell self.old.stack run a.predicate a.left a.right → self.new.stack.env.heap ≡ self.old.stack.env.heap }
    {
        match step.op {
            Op::Or(left, right) => {
                let left = branch(&run, left);
                let right = branch(&run, right);
                self.either(left, right, rest)
            }
            Op::IfThen(condition, then) => {
                let condition = branch(&run, condition);
                let then = branch(&run, then);
                self.then(run.level, condition, then, rest)
            }
            Op::IfThenElse(condition, then, other) => {
                let condition = branch(&run, condition);
                let then = branch(&run, then);
                let other = branch(&run, other);
                self.then_else(condition, then, other, rest)
            }
            Op::Goal => {
                let level = run.level;
                self.solve(program, Source::Node(run, step.goal), level, rest)
            }
            Op::Proceed => unreachable!(),
        }
    }
}
