//! The one row of the built-in predicates (ISO/IEC 13211-1 8).
//!
//! A row that is refused memory leaves the search where it was.
ghost use Rattle.std.specs.Prelude.{◌≡◌, ◌++◌, map, FitsSigned, IfOk, OnOk, OnErr};
ghost use Rattle.std.specs.Int.{w32};
ghost use Rattle.plterm.specs.Tree.{Tree, int};
ghost use Rattle.plterm.specs.declared.indicator.Indicator.{Indicator};
ghost use Rattle.plsubst.specs.Unify.{unify};
ghost use Rattle.plcells.specs.Equations.{IsEquation, left_of, right_of};
ghost use Rattle.plcells.specs.Store.{value, AreValues, IsValue};
ghost use Rattle.plclause.specs.Indicators.{indicator};
ghost use Rattle.plbuiltin.specs.Solution.{decides};
ghost use Rattle.plbuiltin.specs.Solutions.{solutions};
ghost use Rattle.plbuiltin.specs.Terms.{is_none};
ghost use Rattle.planswers.specs.Answers.{meant, IsThere};
ghost use Rattle.plsearch.specs.Moves.{go_on as went_on, raised};
ghost use Rattle.plsearch.specs.Rows.{taken, solved, offer};
ghost use Rattle.plstack.specs.State.{goals_of, IsFit, IsList};
ghost use Rattle.plstack.specs.Arguments.{KeepsArguments};
ghost use Rattle.plmachine.specs.Lists.{Grown};
ghost use Rattle.plmachine.specs.Selected.{StandsFor};
ghost use Rattle.plmachine.specs.Machine.{local_of, IsBegun, Moved, Stays};
ghost use Rattle.plprogram.specs.Program.{Program as Given};

use crate::machine::{Machine, Mode, Outcome};
use crate::select::Source;
use planswers::answer::Answer;
use plcells::cell::Cell;
use plcells::equation::Equation;
use pllinks::link::Continuation;
use plnames::kind::BuiltIn;
use plpredicates::built_in::answers;
use plprogram::settings::Settings;
use plrefusals::value::indicator_of;
use plterm::term::Term;
use std::alloc::AllocError;

impl Machine {
    /// A built-in predicate of all the arguments.
    #[inline(never)]
    pub fn built_in(
        &mut self,
        b: BuiltIn,
        source: Source,
        rest: Continuation,
    ) -> Result<(), AllocError>
        requires begun { (P : Given) × IsBegun P self.old }
        requires visits { self.old.mode ≡ Mode.Visit }
        requires args { AreValues self.old.stack.env.heap self.old.args.items }
        requires source { (t : Tree) × StandsFor self.old.stack source t }
        requires rest { IsList self.old.stack rest }
        requires fits { IsFit self.old.stack rest }
        ensures ok { (P : Given) → IsBegun P self.old → (t : Tree) → StandsFor self.old.stack source t → OnOk result (Moved P self.old self.new (offer (solutions b (map (value self.old.stack.env.heap) self.old.args.items) self.old.settings self.old.stack.env.count) (indicator t) (goals_of self.old.stack rest) self.old.stack.env.count (local_of self.old))) }
        ensures err { (P : Given) → IsBegun P self.old → OnErr result (Stays P self.old self.new) }
    {
        let heap = self.stack.env().heap();
        let answer = answers(self.alloc, heap, &self.settings, b, &self.args)?;
        self.carry_out(answer, source, rest)
    }

    /// What a call of a built-in predicate came to is carried out.
    pub(crate) fn carry_out(
        &mut self,
        answer: Answer,
        source: Source,
        rest: Continuation,
    ) -> Result<(), AllocError>
        requires begun { (P : Given) × IsBegun P self.old }
        requires visits { self.old.mode ≡ Mode.Visit }
        requires answer { IsThere self.old.stack.env.heap answer }
        requires source { (t : Tree) × StandsFor self.old.stack source t }
        requires rest { IsList self.old.stack rest }
        requires fits { IsFit self.old.stack rest }
        ensures ok { (P : Given) → IsBegun P self.old → (t : Tree) → StandsFor self.old.stack source t → OnOk result (Moved P self.old self.new (offer (meant self.old.stack.env.heap self.old.settings self.old.stack.env.count answer) (indicator t) (goals_of self.old.stack rest) self.old.stack.env.count (local_of self.old))) }
        ensures err { (P : Given) → IsBegun P self.old → OnErr result (Stays P self.old self.new) }
    {
        match answer {
            Answer::Raises(error) => self.raise_of(error, source, rest),
            Answer::Fails => {
                self.give(Outcome::Fail);
                Ok(())
            }
            Answer::Succeeds => {
                self.go_on(rest);
                Ok(())
            }
            Answer::Unifies(a, b) => self.unify(a, b, rest),
            Answer::Differs(a, b) => self.differ(a, b, rest),
            Answer::Equals(v, number) => self.equal(v, number, rest),
            Answer::Solves(equation) => self.solve_equation(equation, rest),
            Answer::Several(values, turn) => self.several(&values, turn, rest),
            Answer::Groups(values, groups) => self.one_of(values, &groups, rest),
            Answer::Writes(bytes) => self.write_bytes(&bytes, rest),
            Answer::Sets(settings) => {
                self.set(settings, rest);
                Ok(())
            }
        }
    }

    /// Raises an error of the predicate of a goal.
    pub(crate) fn raise_of(
        &mut self,
        error: Term,
        source: Source,
        rest: Continuation,
    ) -> Result<(), AllocError>
        requires begun { (P : Given) × IsBegun P self.old }
        requires source { (t : Tree) × StandsFor self.old.stack source t }
        requires rest { IsList self.old.stack rest }
        requires fits { IsFit self.old.stack rest }
        ensures ok { (P : Given) → IsBegun P self.old → (t : Tree) → StandsFor self.old.stack source t → OnOk result (Moved P self.old self.new (raised error (indicator t) (goals_of self.old.stack rest) (local_of self.old))) }
        ensures err { (P : Given) → IsBegun P self.old → OnErr result (Stays P self.old self.new) }
    {
        let goal = self.goal(source)?;
        let p = indicator_of(self.alloc, self.stack.env().heap(), &goal)?;
        self.raise(error, &p, rest)
    }

    /// Two terms are unified: the one solution of a built-in predicate.
    fn unify(&mut self, a: Cell, b: Cell, rest: Continuation) -> Result<(), AllocError>
        requires first { IsValue self.old.stack.env.heap a }
        requires second { IsValue self.old.stack.env.heap b }
        requires rest { IsList self.old.stack rest }
        requires fits { IsFit self.old.stack rest }
        ensures ok { (P : Given) → OnOk result (Moved P self.old self.new (taken (solved (goals_of self.old.stack rest) self.old.stack.env.count (record { left = value self.old.stack.env.heap a; right = value self.old.stack.env.heap b; new = 0 })) (local_of self.old))) }
        ensures err { (P : Given) → OnErr result (Stays P self.old self.new) }
    {
        if self.stack.unify(a, b)? {
            self.go_on(rest);
            return Ok(());
        }
        self.give(Outcome::Fail);
        Ok(())
    }

    /// A term is unified with an integer: the one solution of a built-in predicate.
    fn equal(&mut self, v: Cell, number: i64, rest: Continuation) -> Result<(), AllocError>
        requires value { IsValue self.old.stack.env.heap v }
        requires rest { IsList self.old.stack rest }
        requires fits { IsFit self.old.stack rest }
        ensures ok { (P : Given) → OnOk result (Moved P self.old self.new (taken (solved (goals_of self.old.stack rest) self.old.stack.env.count (record { left = value self.old.stack.env.heap v; right = int number; new = 0 })) (local_of self.old))) }
        ensures err { (P : Given) → OnErr result (Stays P self.old self.new) }
    {
        let w = self.integer(number)?;
        self.unify(v, w, rest)
    }

    /// The value of an integer. One of at most 32 bits needs nothing.
    pub(crate) fn integer(&mut self, number: i64) -> Result<Cell, AllocError>
        ensures fits { IfOk result (λ w. IsValue self.new.stack.env.heap w) }
        ensures is { IfOk result (λ w. value self.new.stack.env.heap w ≡ int number) }
        ensures arguments { KeepsArguments self.old.stack self.new.stack }
        ensures grown { Grown self.old.stack self.new.stack }
        ensures frame { self.new ≡ record self.old { stack = self.new.stack } }
        ensures small { FitsSigned w32 number → self.new ≡ self.old }
    {
        if let Ok(small) = i32::try_from(number) {
            return Ok(Cell::Int(small));
        }
        let term = Term::int(self.alloc, number)?;
        self.stack.put_copy(self.alloc, &term)
    }

    /// The two terms of an equation are unified: the one solution of a built-in predicate.
    fn solve_equation(&mut self, equation: Equation, rest: Continuation) -> Result<(), AllocError>
        requires equation { IsEquation self.old.stack.env.heap equation }
        requires rest { IsList self.old.stack rest }
        requires fits { IsFit self.old.stack rest }
        ensures ok { (P : Given) → OnOk result (Moved P self.old self.new (taken (solved (goals_of self.old.stack rest) self.old.stack.env.count (record { left = left_of self.old.stack.env.heap self.old.stack.env.count equation; right = right_of self.old.stack.env.heap self.old.stack.env.count equation; new = equation.new })) (local_of self.old))) }
        ensures err { (P : Given) → OnErr result (Stays P self.old self.new) }
    {
        if self.stack.solve(self.alloc, equation)? {
            self.go_on(rest);
            return Ok(());
        }
        self.give(Outcome::Fail);
        Ok(())
    }

    /// Two terms are not unified: a built-in predicate that is true where they have no unifier.
    fn differ(&mut self, a: Cell, b: Cell, rest: Continuation) -> Result<(), AllocError>
        requires first { IsValue self.old.stack.env.heap a }
        requires second { IsValue self.old.stack.env.heap b }
        requires rest { IsList self.old.stack rest }
        requires fits { IsFit self.old.stack rest }
        ensures ok { (P : Given) → (p : Indicator) → OnOk result (Moved P self.old self.new (offer (decides (is_none (unify (value self.old.stack.env.heap a) (value self.old.stack.env.heap b))) self.old.settings) p (goals_of self.old.stack rest) self.old.stack.env.count (local_of self.old))) }
        ensures err { (P : Given) → OnErr result (Stays P self.old self.new) }
    {
        if self.stack.unify(a, b)? {
            self.give(Outcome::Fail);
            return Ok(());
        }
        self.go_on(rest);
        Ok(())
    }

    /// Writes bytes, and goes on.
    fn write_bytes(&mut self, bytes: &[u8], rest: Continuation) -> Result<(), AllocError>
        requires rest { IsList self.old.stack rest }
        requires fits { IsFit self.old.stack rest }
        ensures ok { (P : Given) → OnOk result (Moved P self.old self.new (went_on (goals_of self.old.stack rest) self.old.stack.env.count (record (local_of self.old) { out = (local_of self.old).out ++ bytes.now }))) }
        ensures err { (P : Given) → OnErr result (Stays P self.old self.new) }
    {
        self.out.extend_from_slice(bytes)?;
        self.go_on(rest);
        Ok(())
    }

    /// Takes other operators and flags, and goes on.
    fn set(&mut self, settings: Settings, rest: Continuation)
        requires rest { IsList self.old.stack rest }
        requires fits { IsFit self.old.stack rest }
        ensures { (P : Given) → Moved P self.old self.new (went_on (goals_of self.old.stack rest) self.old.stack.env.count (record (local_of self.old) { settings = settings })) }
    {
        self.settings = settings;
        self.go_on(rest);
    }
}
