//! The turns at handlers: of a ball at a catcher (ISO/IEC 13211-1 7.8.9), and of failure where copies are gathered (8.10.1).
//!
//! A turn that is refused memory leaves the search where it was.

ghost use Rattle.std.specs.Prelude.{◌≡◌, ◌-◌, drop, true, OnOk, OnErr};
ghost use Rattle.plcells.specs.Store.{IsValue};
ghost use Rattle.plprogram.specs.Program.{Program as Given};
ghost use Rattle.plstack.specs.State.{goals_of, kinds_in, EndsWalks, HasCatcher, HasGatherer, HasHandler, IsList};
ghost use Rattle.plstack.specs.Levels.{FitsIn};
ghost use Rattle.plmachine.specs.Machine.{depth_of};
ghost use Rattle.plsolver.specs.Solver.{IsBack, Stays, Quiet, throws_to, Recovered, Rethrown};

use crate::progress::Progress;
use plbind::apart::is_apart;
use plcells::cell::Cell;
use plerror::error;
use pllinks::item::Portion;
use pllinks::link::Continuation;
use plmachine::machine::{Mode, Outcome};
use plmachine::running::Ready;
use plrefusals::predicate::Predicate;
use plstack::frame::{Handler, Handling};
use plterm::term::Term;
use std::alloc::AllocError;

impl Progress {
    /// The ball that is carried, at the innermost case, which is a catcher that is active. It is not copied where it is seen to be another one.
    #[tactic(auto, using(crate::proofs::Ending::ends_same, crate::proofs::Ending::ends_refl))]
    pub(crate) fn catch(&mut self) -> Result<(), AllocError>
        requires catch { HasCatcher self.old.machine.stack }
        requires throws { throws_to (depth_of self.old.machine - 1) self.old.machine.mode ≡ true }
        ensures ok { OnOk result ((P : Given) → Quiet P self.old self.new) }
        ensures err { OnErr result ((P : Given) → Stays P self.old self.new) }
        ensures walks { EndsWalks self.old.machine.stack self.new.machine.stack }
    {
        let Handling { handler, list } = self.machine.stack.rewind();
        let Handler::Catch(catcher) = handler else {
            unreachable!()
        };
        let Mode::Back(outcome) = &self.machine.mode else {
            unreachable!()
        };
        let Outcome::Throw(ball, _) = outcome else {
            unreachable!()
        };
        let heap = self.machine.stack.env().heap();
        if is_apart(heap, &catcher.catcher, &ball.root()) {
            self.machine.stack.close();
            return Ok(());
        }
        let v = self.machine.stack.put_copy(self.machine.alloc, ball)?;
        if self.machine.stack.unify(catcher.catcher, v)? {
            self.recover(catcher.recovery, list)?;
        } else {
            self.machine.stack.close();
        }
        Ok(())
    }

    /// Failure, at the innermost case, which gathers what was kept.
    #[tactic(auto, using(crate::proofs::Ending::ends_same, crate::proofs::Ending::ends_refl))]
    pub(crate) fn gather(&mut self) -> Result<(), AllocError>
        requires gathers { HasGatherer self.old.machine.stack }
        requires fails { self.old.machine.mode ≡ Mode.Back Outcome.Fail }
        ensures ok { OnOk result ((P : Given) → Quiet P self.old self.new) }
        ensures err { OnErr result ((P : Given) → Stays P self.old self.new) }
        ensures walks { EndsWalks self.old.machine.stack self.new.machine.stack }
    {
        let Handling { handler, list } = self.machine.stack.rewind();
        let Handler::Gather(whole) = handler else {
            unreachable!()
        };
        let level = self.machine.stack.level();
        let fits = self.machine.gather(level, whole)?;
        self.machine.kept.drop_from(level);
        if !fits {
            self.machine.stack.close();
            return Ok(());
        }
        self.machine.stack.leave(list);
        self.machine.mode = Mode::Visit;
        Ok(())
    }

    /// Runs a recovery before a list, in place of the innermost case, which is its catcher.
    #[tactic(auto, using(crate::proofs::Ending::ends_same, crate::proofs::Ending::ends_refl))]
    fn recover(&mut self, recovery: Cell, list: Continuation) -> Result<(), AllocError>
        requires back { IsBack self.old }
        requires catch { HasHandler self.old.machine.stack }
        requires recovery { IsValue self.old.machine.stack.env.heap recovery }
        requires list { IsList self.old.machine.stack list }
        requires fits { FitsIn (drop 1 (kinds_in self.old.machine.stack)) (goals_of self.old.machine.stack list) }
        ensures ok { OnOk result ((P : Given) → Recovered P self.old self.new recovery list) }
        ensures err { OnErr result ((P : Given) → Stays P self.old self.new) }
        ensures walks { EndsWalks self.old.machine.stack self.new.machine.stack }
    {
        match self.machine.ready(&recovery)? {
            Ready::Raises(error) => self.rethrow(error, list),
            Ready::Runs(goal) => {
                let level = self.machine.stack.level();
                let made = self.machine.stack.link(Portion::Goal(level, goal), list)?;
                self.machine.stack.recover(made);
                self.machine.kept.drop_from(level);
                self.machine.mode = Mode::Visit;
                Ok(())
            }
        }
    }

    /// Throws an error of catch/3 before a list, in place of the innermost case.
    #[tactic(auto, using(crate::proofs::Ending::ends_same, crate::proofs::Ending::ends_refl))]
    fn rethrow(&mut self, error: Term, list: Continuation) -> Result<(), AllocError>
        requires catch { HasHandler self.old.machine.stack }
        requires list { IsList self.old.machine.stack list }
        requires fits { FitsIn (drop 1 (kinds_in self.old.machine.stack)) (goals_of self.old.machine.stack list) }
        ensures ok { OnOk result ((P : Given) → Rethrown P self.old self.new error list) }
        ensures err { OnErr result (self.new ≡ self.old) }
        ensures walks { EndsWalks self.old.machine.stack self.new.machine.stack }
    {
        let alloc = self.machine.alloc;
        let p = Predicate::Catch.indicator(alloc)?;
        let ball = error::ball(alloc, error, &p)?;
        let levels = self.machine.stack.levels(alloc, list)?;
        self.machine.stack.close();
        self.machine.mode = Mode::Back(Outcome::Throw(ball, levels));
        Ok(())
    }
}
