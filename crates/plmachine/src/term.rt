//! A goal by where its term stands (ISO/IEC 13211-1 7.7.7).
ghost use Rattle.std.specs.Prelude.{◌≡◌, ◌≤◌, ℕ, length, map, IfOk, IfSome, IfNone, OnOk, OnErr};
ghost use Rattle.plterm.specs.Tree.{Tree};
ghost use Rattle.plcells.specs.Store.{value, AreValues, IsValue};
ghost use Rattle.plsearch.specs.Forms.{form as form_by_term};
ghost use Rattle.plsearch.specs.Rows.{row};
ghost use Rattle.plgoals.specs.Callables.{called, IsCallable, IsNoGoal};
ghost use Rattle.pllinks.specs.declared.item.ClauseGoals.{ClauseGoals as OfRun};
ghost use Rattle.plstack.specs.Arguments.{IsArgument};
ghost use Rattle.plstack.specs.Levels.{Precedes};
ghost use Rattle.plstack.specs.State.{goals_of, kinds_in, IsList};
ghost use Rattle.plmachine.specs.Calculating.{IsArithmetic, NeedsNoCell};
ghost use Rattle.plmachine.specs.Lists.{Grown};
ghost use Rattle.plmachine.specs.Machine.{below_in, depth_of, local_of, IsBegun, IsTied, MovedBy, Stays};
ghost use Rattle.plgoals.specs.declared.form.Form.TheVariants as forms;
ghost use Rattle.plgoals.specs.declared.form.Procedure.TheVariants as procedures;
ghost use Rattle.plprogram.specs.Program.{Program as OfProgram};
ghost use Rattle.plmachine.specs.declared.select.Source.{Source as OfSource};
ghost use Rattle.plmachine.specs.Selected.{IsCalledBy, IsSelected, StandsFor};

use crate::machine::{Machine, Mode};
use crate::select::Source;
use plcells::cell::Cell;
use plcode::callee::Number;
use plgoals::callable::arguments_of;
use plgoals::form::{Form, form_of, static_of};
use pllinks::level::Level;
use pllinks::link::Continuation;
use plprogram::program::Program;
use std::alloc::AllocError;

impl Machine {
    /// The row of a goal that is the term of a value.
    pub fn term(
        &mut self,
        program: &Program,
        level: Level,
        goal: Cell,
        rest: Continuation,
    ) -> Result<(), AllocError>
        requires begun { IsBegun program.now self.old }
        requires visits { self.old.mode ≡ Mode.Visit }
        requires goal { IsValue self.old.stack.env.heap goal }
        requires rest { IsList self.old.stack rest }
        requires level { Precedes (kinds_in self.old.stack) level (goals_of self.old.stack rest) }
        requires tied { IsTied self.old }
        ensures ok { OnOk result (MovedBy program.now self.old self.new (λ v. row program.now (below_in v self.old) (form_by_term (value self.old.stack.env.heap goal)) level (value self.old.stack.env.heap goal) (depth_of self.old) (goals_of self.old.stack rest) self.old.stack.env.count (local_of self.old))) }
        ensures err { OnErr result (Stays program.now self.old self.new) }
    {
        self.solve(program, Source::Value(goal), level, rest)
    }

    /// The row of a goal by where its term stands. One of an arithmetic predicate that stands in a clause, and needs no cell, leaves the heap
    /// as it is.
    #[inline(always)]
    pub(crate) fn solve(
        &mut self,
        program: &Program,
        source: Source,
        level: Level,
        rest: Continuation,
    ) -> Result<(), AllocError>
        requires begun { IsBegun program.now self.old }
        requires visits { self.old.mode ≡ Mode.Visit }
        requires source { (t : Tree) × StandsFor self.old.stack source t }
        requires rest { IsList self.old.stack rest }
        requires level { Precedes (kinds_in self.old.stack) level (goals_of self.old.stack rest) }
        requires tied { IsTied self.old }
        ensures ok { (t : Tree) → StandsFor self.old.stack source t → OnOk result (MovedBy program.now self.old self.new (λ v. row program.now (below_in v self.old) (form_by_term t) level t (depth_of self.old) (goals_of self.old.stack rest) self.old.stack.env.count (local_of self.old))) }
        ensures err { OnErr result (Stays program.now self.old self.new) }
        ensures heap { (r : OfRun) (node : ℕ) (t : Tree) (a : IsArithmetic t) → source ≡ Source.Node r node → IsArgument self.old.stack r node t → NeedsNoCell self.old.stack r a.predicate a.left a.right → self.new.stack.env.heap ≡ self.old.stack.env.heap }
    {
        if let Some(call) = self.calculation(&source) {
            return self.calculate(call, rest);
        }
        let number = self.number(&source)?;
        if let Some(place) = self.static_by(number) {
            return self.resolve(place, rest);
        }
        self.select_by(program, number, source, level, rest)
    }

    /// The place of the procedure that a goal calls, where it is one of the program's text, by the goal's number.
    #[inline(always)]
    fn static_by(&self, number: Option<Number>) -> Option<u32>
        ensures { IfSome result (λ place. (P : OfProgram) (source : OfSource) (t : Tree) → IsBegun P self.now → self.now.mode ≡ Mode.Visit → IsCalledBy self.now number source t → IsSelected P self.now (forms.Call (procedures.Static place)) source t) }
    {
        let _ = self.stack.env().heap();
        match number {
            Some(number) => static_of(self.stack.code(), number),
            None => None,
        }
    }

    /// The row of a goal by its number, where the values of its arguments are those of the goal that is selected.
    #[inline(never)]
    fn select_by(
        &mut self,
        program: &Program,
        number: Option<Number>,
        source: Source,
        level: Level,
        rest: Continuation,
    ) -> Result<(), AllocError>
        requires begun { IsBegun program.now self.old }
        requires visits { self.old.mode ≡ Mode.Visit }
        requires called { (t : Tree) × IsCalledBy self.old number source t }
        requires rest { IsList self.old.stack rest }
        requires level { Precedes (kinds_in self.old.stack) level (goals_of self.old.stack rest) }
        requires tied { IsTied self.old }
        ensures ok { (t : Tree) → IsCalledBy self.old number source t → OnOk result (MovedBy program.now self.old self.new (λ v. row program.now (below_in v self.old) (form_by_term t) level t (depth_of self.old) (goals_of self.old.stack rest) self.old.stack.env.count (local_of self.old))) }
        ensures err { OnErr result (Stays program.now self.old self.new) }
    {
        let form = self.form(number);
        self.select(program, form, source, level, rest)
    }

    /// What a goal is, by its number.
    fn form(&self, number: Option<Number>) -> Form
        requires { (P : OfProgram) × (source : OfSource) × (t : Tree) × IsBegun P self.now × IsCalledBy self.now number source t }
        ensures { (P : OfProgram) (source : OfSource) (t : Tree) → IsBegun P self.now → self.now.mode ≡ Mode.Visit → IsCalledBy self.now number source t → IsSelected P self.now result source t }
    {
        let Some(number) = number else {
            return Form::NoGoal;
        };
        let heap = self.stack.env().heap();
        form_of(heap, self.stack.code(), number, &self.args)
    }

    /// The number by which a goal is called, and the values of its arguments; none for a variable or an integer.
    #[inline(always)]
    fn number(&mut self, source: &Source) -> Result<Option<Number>, AllocError>
        requires source { (t : Tree) × StandsFor self.old.stack source.now t }
        ensures callable { IfOk result (λ found. IfSome found (λ n. IsCallable self.new.stack.env.heap.names n (length self.new.args.items))) }
        ensures is { IfOk result (λ found. IfSome found (λ n. (t : Tree) → StandsFor self.old.stack source.now t → t ≡ called self.new.stack.env.heap.names n (map (value self.new.stack.env.heap) self.new.args.items))) }
        ensures none { IfOk result (λ found. IfNone found ((t : Tree) → StandsFor self.old.stack source.now t → IsNoGoal t)) }
        ensures values { OnOk result (AreValues self.new.stack.env.heap self.new.args.items) }
        ensures few { OnOk result (length self.new.args.items ≤ 1024) }
        ensures stands { (t : Tree) → StandsFor self.old.stack source.now t → StandsFor self.new.stack source.now t }
        ensures grown { Grown self.old.stack self.new.stack }
        ensures frame { self.new ≡ record self.old { stack = self.new.stack; args = self.new.args } }
    {
        match source {
            Source::Value(goal) => arguments_of(self.stack.env().heap(), *goal, &mut self.args),
            Source::Node(run, node) => self.stack.put_goal(*run, *node, &mut self.args),
        }
    }
}
