//! A goal that is selected (ISO/IEC 13211-1 7.7.7).
ghost use Rattle.std.specs.Prelude.{◌≡◌, ◌≤◌, ◌∷◌, length, IfOk, OnOk, OnErr};
ghost use Rattle.plterm.specs.Tree.{Tree};
ghost use Rattle.plterm.specs.declared.indicator.Indicator.{Indicator as OfIndicator};
ghost use Rattle.plcells.specs.Store.{value, AreValues, IsValue};
ghost use Rattle.plprogram.specs.Program.{clauses_for};
ghost use Rattle.plsearch.specs.Forms.{form as form_of};
ghost use Rattle.plsearch.specs.Types.{ToCall};
ghost use Rattle.plsearch.specs.Lookups.{seek};
ghost use Rattle.plsearch.specs.Moves.{call as called};
ghost use Rattle.plsearch.specs.Rows.{row, user};
ghost use Rattle.plstack.specs.Levels.{Precedes};
ghost use Rattle.plstack.specs.State.{goals_of, kinds_in, IsFit, IsList};
ghost use Rattle.plmachine.specs.Lists.{Grown};
ghost use Rattle.plmachine.specs.Machine.{below_in, depth_of, local_of, IsBegun, IsTied, Moved, MovedBy, Stays};
ghost use Rattle.plmachine.specs.Selected.{IsCallOf, IsSelected, IsStaticCall, StandsFor};
ghost use Rattle.plprogram.specs.Program.{Program as Given};

use crate::finding::Finding;
use crate::machine::{Lookup, Machine, Mode, Outcome};
use plcells::cell::Cell;
use plgoals::form::{Form, Procedure};
use pllinks::item::{ClauseGoals, Portion};
use pllinks::level::Level;
use pllinks::link::Continuation;
use plprogram::program::Program;
use plstack::frame::Catcher;
use std::alloc::AllocError;

/// Where the term of a goal stands.
#[derive(Clone, Copy)]
pub enum Source {
    /// It is the term of a value.
    Value(Cell),
    /// It stands at a node of a clause's code, with the slots of a run for its variables.
    Node(ClauseGoals, u32),
}

impl Machine {
    /// The row of a goal.
    #[tactic(auto, using(crate::proofs::Levels::fits_behind))]
    pub fn select(
        &mut self,
        program: &Program,
        form: Form,
        source: Source,
        level: Level,
        rest: Continuation,
    ) -> Result<(), AllocError>
        requires selected { (t : Tree) × IsSelected program.now self.old form source t }
        requires rest { IsList self.old.stack rest }
        requires level { Precedes (kinds_in self.old.stack) level (goals_of self.old.stack rest) }
        requires tied { IsTied self.old }
        ensures ok { (t : Tree) → IsSelected program.now self.old form source t → OnOk result (MovedBy program.now self.old self.new (λ v. row program.now (below_in v self.old) (form_of t) level t (depth_of self.old) (goals_of self.old.stack rest) self.old.stack.env.count (local_of self.old))) }
        ensures err { OnErr result (Stays program.now self.old self.new) }
    {
        match form {
            Form::True => {
                self.go_on(rest);
                Ok(())
            }
            Form::False => {
                self.give(Outcome::Fail);
                Ok(())
            }
            Form::Both(a, b) => {
                self.both(Portion::Goal(level, a), Portion::Goal(level, b), rest)
            }
            Form::Either(a, b) => {
                self.either(Portion::Goal(level, a), Portion::Goal(level, b), rest)
            }
            Form::IfThen(condition, then) => {
                let condition = Portion::Goal(level, condition);
                self.then(level, condition, Portion::Goal(level, then), rest)
            }
            Form::IfThenElse(condition, then, other) => {
                let condition = Portion::Goal(level, condition);
                let then = Portion::Goal(level, then);
                self.then_else(condition, then, Portion::Goal(level, other), rest)
            }
            Form::Not(goal) => self.not(goal, rest),
            Form::Once(goal) => self.once(goal, rest),
            Form::Catching(goal, catcher, recovery) => {
                self.catching(goal, Catcher { catcher, recovery }, rest)
            }
            Form::FindAll(template, goal, whole) => {
                let finding = Finding {
                    template,
                    goal,
                    whole,
                };
                self.find_all(finding, rest)
            }
            Form::Within(kind, goal) => self.within(kind, goal, rest),
            Form::Throwing(ball) => self.throw(ball, rest),
            Form::CallWith => self.call_with(rest),
            Form::Cut => self.cut(level, rest),
            Form::BuiltIn(b) => self.built_in(b, source, rest),
            Form::Adding(side, clause) => self.add(program, side, clause, source, rest),
            Form::Retrieving(head, body) => self.retrieve(program, head, body, source, rest),
            Form::Retracting(clause) => self.retract(program, clause, source, rest),
            Form::RetractingAll(head) => self.retract_all(program, head, source, rest),
            Form::Declaring(names) => self.declare(program, names, source, rest),
            Form::Halt => {
                self.halt(0, rest);
                Ok(())
            }
            Form::HaltWith(number) => self.halt_with(number, rest),
            Form::Call(procedure) => self.call(procedure, source, rest),
            Form::NoGoal => {
                self.give(Outcome::Fail);
                Ok(())
            }
        }
    }

    /// The goal that is selected, as a value.
    pub(crate) fn goal(&mut self, source: Source) -> Result<Cell, AllocError>
        requires { (t : Tree) × StandsFor self.old.stack source t }
        ensures there { IfOk result (λ v. IsValue self.new.stack.env.heap v) }
        ensures is { IfOk result (λ v. (t : Tree) → StandsFor self.old.stack source t → value self.new.stack.env.heap v ≡ t) }
        ensures grown { Grown self.old.stack self.new.stack }
        ensures frame { self.new ≡ record self.old { stack = self.new.stack } }
    {
        match source {
            Source::Value(v) => Ok(v),
            Source::Node(run, node) => self.stack.put_node(run, node),
        }
    }

    /// A call of a procedure of all the arguments.
    fn call(
        &mut self,
        procedure: Procedure,
        source: Source,
        rest: Continuation,
    ) -> Result<(), AllocError>
        requires begun { (P : Given) × IsBegun P self.old }
        requires visits { self.old.mode ≡ Mode.Visit }
        requires args { AreValues self.old.stack.env.heap self.old.args.items }
        requires few { length self.old.args.items ≤ 1024 }
        requires source { (t : Tree) × StandsFor self.old.stack source t }
        requires rest { IsList self.old.stack rest }
        requires fits { IsFit self.old.stack rest }
        requires tied { IsTied self.old }
        ensures ok { (P : Given) → IsBegun P self.old → (p : OfIndicator) (t : Tree) → StandsFor self.old.stack source t → IsCallOf P self.old p procedure t → OnOk result (MovedBy P self.old self.new (λ v. user (below_in v self.old) (clauses_for P p) (depth_of self.old) t (goals_of self.old.stack rest) self.old.stack.env.count (local_of self.old))) }
        ensures err { (P : Given) → IsBegun P self.old → OnErr result (Stays P self.old self.new) }
    {
        match procedure {
            Procedure::Static(place) => self.resolve(place, rest),
            Procedure::Unknown => self.look(source, rest),
        }
    }

    /// A call of a procedure of the program's text, by its place, of all the arguments.
    pub(crate) fn resolve(&mut self, place: u32, rest: Continuation) -> Result<(), AllocError>
        requires begun { (P : Given) × IsBegun P self.old }
        requires visits { self.old.mode ≡ Mode.Visit }
        requires args { AreValues self.old.stack.env.heap self.old.args.items }
        requires few { length self.old.args.items ≤ 1024 }
        requires rest { IsList self.old.stack rest }
        requires fits { IsFit self.old.stack rest }
        ensures ok { (P : Given) → IsBegun P self.old → (p : OfIndicator) (t : Tree) → IsStaticCall P self.old p place t → OnOk result (Moved P self.old self.new (called (depth_of self.old) self.old.stack.env.count t (goals_of self.old.stack rest) (clauses_for P p) (local_of self.old))) }
        ensures err { (P : Given) → IsBegun P self.old → OnErr result (Stays P self.old self.new) }
    {
        if self.stack.call(place, &self.args, rest)? {
            return Ok(());
        }
        self.give(Outcome::Fail);
        Ok(())
    }

    /// A call of a procedure that is not in the program's text: its clauses are looked up in a view.
    #[inline(never)]
    fn look(&mut self, source: Source, rest: Continuation) -> Result<(), AllocError>
        requires source { (t : Tree) × StandsFor self.old.stack source t }
        requires rest { IsList self.old.stack rest }
        requires fits { IsFit self.old.stack rest }
        requires tied { IsTied self.old }
        ensures ok { (P : Given) → (t : Tree) → StandsFor self.old.stack source t → OnOk result (MovedBy P self.old self.new (λ v. seek (below_in v self.old) (ToCall t) (depth_of self.old) (goals_of self.old.stack rest) self.old.stack.env.count (local_of self.old))) }
        ensures err { (P : Given) → OnErr result (Stays P self.old self.new) }
    {
        let goal = self.goal(source)?;
        self.seek(Lookup::ToCall(goal), rest)
    }
}
