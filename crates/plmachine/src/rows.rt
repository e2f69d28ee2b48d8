//! The rows of the table of control: what each form of goal makes of a machine (ISO/IEC 13211-1 7.8).
//!
//! A row that is refused memory leaves the search where it was.
ghost use Rattle.std.specs.Prelude.{◌≡◌, ◌+◌, suc, List, [], ◌∷◌, ◌++◌, codes, OnOk, OnErr};
ghost use Rattle.plterm.specs.Tree.{atom};
ghost use Rattle.plcells.specs.Store.{value, IsValue};
ghost use Rattle.plsearch.specs.Types.{Goal, Commit, Marker, Go, Choice, Mark};
ghost use Rattle.plsearch.specs.Moves.{raised, go_on as went_on};
ghost use Rattle.plsearch.specs.Rows.{thrown, branch};
ghost use Rattle.plevent.specs.declared.update.Update.{Update};
ghost use Rattle.plstack.specs.Places.{Database, IsOwnSoFar};
ghost use Rattle.plstack.specs.Levels.{kinds, FitsIn, Precedes};
ghost use Rattle.plstack.specs.State.{cases_of, goals_of, kinds_in, IsFit, IsList};
ghost use Rattle.plstack.specs.Opening.{around_cases, branch_of, IsAround};
ghost use Rattle.plmachine.specs.Lists.{at_level, elements_of, AreGoals, IsPart};
ghost use Rattle.plmachine.specs.Machine.{depth_of, element_of, local_of, IsAskable, IsBegun, Moved, Stays};
ghost use Rattle.plprogram.specs.Program.{Program as Given};

use crate::list::{at_level, failure, two_before, two_in_turn};
use crate::machine::{Machine, Mode, Outcome, Question};
use planswers::list::is_variable;
use plcells::cell::Cell;
use plerror::error;
use pllinks::item::{MarkerKind, Portion};
use pllinks::level::Level;
use pllinks::link::Continuation;
use plrefusals::predicate::Predicate;
use plstack::frame::Around;
use plterm::indicator::Indicator;
use plterm::term::Term;
use std::alloc::AllocError;

impl Machine {
    /// Visits a list.
    pub fn go_on(&mut self, list: Continuation)
        requires list { IsList self.old.stack list }
        requires fits { IsFit self.old.stack list }
        ensures is { self.new ≡ record self.old { stack = record self.old.stack { goals = list }; mode = Mode.Visit } }
        ensures own { (db : Database) (own : List Update) → IsOwnSoFar self.old.stack.basis.latest db own → cases_of (record db { own = own }) self.old.stack ≡ cases_of db self.old.stack }
    {
        self.stack.visit(list);
        // A mode is wide, and mostly it is this one already.
        if !matches!(self.mode, Mode::Visit) {
            self.turn_to_goals();
        }
    }

    /// The visited list is what is gone on with.
    #[inline(never)]
    fn turn_to_goals(&mut self)
        ensures { self.new ≡ record self.old { mode = Mode.Visit } }
    {
        self.mode = Mode::Visit;
    }

    /// Carries a result.
    pub fn give(&mut self, outcome: Outcome)
        ensures { self.new ≡ record self.old { mode = Mode.Back outcome } }
    {
        self.mode = Mode::Back(outcome);
    }

    /// Raises an error of a predicate.
    #[inline(never)]
    pub fn raise(
        &mut self,
        error: Term,
        p: &Indicator,
        rest: Continuation,
    ) -> Result<(), AllocError>
        requires rest { IsList self.old.stack rest }
        requires fits { IsFit self.old.stack rest }
        ensures ok { (P : Given) → OnOk result (Moved P self.old self.new (raised error p.now (goals_of self.old.stack rest) (local_of self.old))) }
        ensures err { (P : Given) → OnErr result (Stays P self.old self.new) }
    {
        let ball = error::ball(self.alloc, error, p)?;
        let levels = self.stack.levels(self.alloc, rest)?;
        self.give(Outcome::Throw(ball, levels));
        Ok(())
    }

    /// Asks something before a list.
    pub fn ask(&mut self, question: Question, rest: Continuation)
        requires askable { IsAskable self.old.layer.own (record self.old.stack { goals = rest }) question }
        requires rest { IsList self.old.stack rest }
        requires fits { IsFit self.old.stack rest }
        ensures { (P : Given) → Moved P self.old self.new (went_on (element_of self.old.stack.env.heap question ∷ goals_of self.old.stack rest) self.old.stack.env.count (local_of self.old)) }
    {
        self.stack.visit(rest);
        self.mode = Mode::Ask(question);
    }

    /// Opens a choice of a list, and visits another in it.
    fn enter_branch(&mut self, list: Continuation, other: Continuation) -> Result<(), AllocError>
        requires list { IsList self.old.stack list }
        requires other { IsList self.old.stack other }
        requires list_fits { IsFit self.old.stack list }
        requires other_fits { IsFit self.old.stack other }
        ensures ok { (P : Given) → OnOk result (Moved P self.old self.new (Go (branch_of self.old.stack other ∷ []) (record { goals = goals_of self.old.stack list; variables = self.old.stack.env.count }) (local_of self.old))) }
        ensures err { (P : Given) → OnErr result (Stays P self.old self.new) }
    {
        self.stack.open_branch(other)?;
        self.go_on(list);
        Ok(())
    }

    /// Opens a choice with nothing left in other cases, and visits a list in it.
    pub fn enter(&mut self, list: Continuation, around: Around) -> Result<(), AllocError>
        requires list { IsList self.old.stack list }
        requires around { IsAround self.old.stack around }
        requires fits { FitsIn (kinds (Choice [] ∷ around_cases self.old.stack around) ++ kinds_in self.old.stack) (goals_of self.old.stack list) }
        ensures ok { (P : Given) → OnOk result (Moved P self.old self.new (Go (Choice [] ∷ around_cases self.old.stack around) (record { goals = goals_of self.old.stack list; variables = self.old.stack.env.count }) (local_of self.old))) }
        ensures err { (P : Given) → OnErr result (Stays P self.old self.new) }
    {
        self.stack.open_run(around)?;
        self.go_on(list);
        Ok(())
    }

    /// A conjunction.
    #[inline(never)]
    pub fn both(
        &mut self,
        first: Portion,
        second: Portion,
        rest: Continuation,
    ) -> Result<(), AllocError>
        requires first { IsPart self.old.stack first }
        requires second { IsPart self.old.stack second }
        requires rest { IsList self.old.stack rest }
        requires fits { FitsIn (kinds_in self.old.stack) (elements_of self.old.stack first ++ (elements_of self.old.stack second ++ goals_of self.old.stack rest)) }
        ensures ok { (P : Given) → OnOk result (Moved P self.old self.new (went_on (elements_of self.old.stack first ++ (elements_of self.old.stack second ++ goals_of self.old.stack rest)) self.old.stack.env.count (local_of self.old))) }
        ensures err { (P : Given) → OnErr result (Stays P self.old self.new) }
    {
        let list = two_in_turn(&mut self.stack, first, second, rest)?;
        self.go_on(list);
        Ok(())
    }

    /// A disjunction.
    #[inline(never)]
    pub fn either(
        &mut self,
        first: Portion,
        second: Portion,
        rest: Continuation,
    ) -> Result<(), AllocError>
        requires first { IsPart self.old.stack first }
        requires second { IsPart self.old.stack second }
        requires rest { IsList self.old.stack rest }
        requires first_fits { FitsIn (kinds_in self.old.stack) (elements_of self.old.stack first ++ goals_of self.old.stack rest) }
        requires second_fits { FitsIn (kinds_in self.old.stack) (elements_of self.old.stack second ++ goals_of self.old.stack rest) }
        ensures ok { (P : Given) → OnOk result (Moved P self.old self.new (Go (branch (elements_of self.old.stack second ++ goals_of self.old.stack rest) self.old.stack.env.count ∷ []) (record { goals = elements_of self.old.stack first ++ goals_of self.old.stack rest; variables = self.old.stack.env.count }) (local_of self.old))) }
        ensures err { (P : Given) → OnErr result (Stays P self.old self.new) }
    {
        let (list, other) = two_before(&mut self.stack, first, second, rest)?;
        self.enter_branch(list, other)
    }

    /// A condition, what follows it, and what is done where it fails.
    #[inline(never)]
    pub fn then_else(
        &mut self,
        condition: Portion,
        then: Portion,
        other: Portion,
        rest: Continuation,
    ) -> Result<(), AllocError>
        requires condition { IsPart self.old.stack condition }
        requires then { IsPart self.old.stack then }
        requires other { IsPart self.old.stack other }
        requires rest { IsList self.old.stack rest }
        requires goals { AreGoals condition }
        requires then_fits { FitsIn (kinds_in self.old.stack) (elements_of self.old.stack then ++ goals_of self.old.stack rest) }
        requires other_fits { FitsIn (kinds_in self.old.stack) (elements_of self.old.stack other ++ goals_of self.old.stack rest) }
        ensures ok { (P : Given) → OnOk result (Moved P self.old self.new (Go (Choice [] ∷ branch (elements_of self.old.stack other ++ goals_of self.old.stack rest) self.old.stack.env.count ∷ []) (record { goals = elements_of self.old.stack (at_level (suc (depth_of self.old)) condition) ++ (Marker Commit (depth_of self.old) ∷ (elements_of self.old.stack then ++ goals_of self.old.stack rest)); variables = self.old.stack.env.count }) (local_of self.old))) }
        ensures err { (P : Given) → OnErr result (Stays P self.old self.new) }
    {
        let depth = self.stack.depth();
        let Some(inner) = depth.up(1) else {
            return Err(AllocError);
        };
        let (following, failing) = two_before(&mut self.stack, then, other, rest)?;
        let marker = Portion::Marker(MarkerKind::Commit, depth);
        let list = two_in_turn(
            &mut self.stack,
            at_level(condition, inner),
            marker,
            following,
        )?;
        self.enter(list, Around::Branch(failing))
    }

    /// A condition and what follows it, in place of which there is failure.
    pub fn then(
        &mut self,
        level: Level,
        condition: Portion,
        then: Portion,
        rest: Continuation,
    ) -> Result<(), AllocError>
        requires begun { (P : Given) × IsBegun P self.old }
        requires condition { IsPart self.old.stack condition }
        requires then { IsPart self.old.stack then }
        requires rest { IsList self.old.stack rest }
        requires goals { AreGoals condition }
        requires then_fits { FitsIn (kinds_in self.old.stack) (elements_of self.old.stack then ++ goals_of self.old.stack rest) }
        requires level { Precedes (kinds_in self.old.stack) level (goals_of self.old.stack rest) }
        ensures ok { (P : Given) → IsBegun P self.old → OnOk result (Moved P self.old self.new (Go (Choice [] ∷ branch (Goal level (atom (codes "fail")) ∷ goals_of self.old.stack rest) self.old.stack.env.count ∷ []) (record { goals = elements_of self.old.stack (at_level (suc (depth_of self.old)) condition) ++ (Marker Commit (depth_of self.old) ∷ (elements_of self.old.stack then ++ goals_of self.old.stack rest)); variables = self.old.stack.env.count }) (local_of self.old))) }
        ensures err { (P : Given) → IsBegun P self.old → OnErr result (Stays P self.old self.new) }
    {
        self.then_else(condition, then, failure(level), rest)
    }

    /// `!`/0 of a goal with a cut level.
    pub fn cut(&mut self, level: Level, rest: Continuation) -> Result<(), AllocError>
        requires rest { IsList self.old.stack rest }
        requires level { Precedes (kinds_in self.old.stack) level (goals_of self.old.stack rest) }
        ensures ok { (P : Given) → OnOk result (Moved P self.old self.new (Go (Mark level ∷ []) (record { goals = goals_of self.old.stack rest; variables = self.old.stack.env.count }) (local_of self.old))) }
        ensures err { (P : Given) → OnErr result (Stays P self.old self.new) }
    {
        self.stack.cut(level, rest)?;
        self.mode = Mode::Visit;
        Ok(())
    }

    /// throw/1.
    #[inline(never)]
    pub fn throw(&mut self, ball: Cell, rest: Continuation) -> Result<(), AllocError>
        requires ball { IsValue self.old.stack.env.heap ball }
        requires rest { IsList self.old.stack rest }
        requires fits { IsFit self.old.stack rest }
        ensures ok { (P : Given) → OnOk result (Moved P self.old self.new (thrown (value self.old.stack.env.heap ball) (goals_of self.old.stack rest) (local_of self.old))) }
        ensures err { (P : Given) → OnErr result (Stays P self.old self.new) }
    {
        if is_variable(self.stack.env().heap(), &ball) {
            let p = Predicate::Throw.indicator(self.alloc)?;
            let error = error::instantiation_error(self.alloc)?;
            return self.raise(error, &p, rest);
        }
        let term = self.stack.env().heap().take(self.alloc, ball)?;
        let copy = term.copy(self.alloc, 0)?;
        let levels = self.stack.levels(self.alloc, rest)?;
        self.give(Outcome::Throw(copy, levels));
        Ok(())
    }
}
