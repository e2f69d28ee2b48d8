//! Arithmetic over the expressions of clauses: they are evaluated where they stand, and nothing is put (ISO/IEC 13211-1 8.6, 8.7).
//!
//! A row that is refused memory leaves the search where it was.
ghost use Rattle.std.specs.Prelude.{◌≡◌, ℕ, FitsSigned, IfSome, IfNone, OnOk, OnErr};
ghost use Rattle.std.specs.Int.{w32};
ghost use Rattle.plterm.specs.Tree.{int, Tree};
ghost use Rattle.plclause.specs.Indicators.{indicator};
ghost use Rattle.plarith.specs.Errors.{error_of};
ghost use Rattle.plarith.specs.Evaluation.{eval};
ghost use Rattle.plprogram.specs.Program.{Program as OfProgram};
ghost use Rattle.plbuiltin.specs.Arithmetic.{compared as compared_of, equals, of_two};
ghost use Rattle.plsearch.specs.Moves.{raised};
ghost use Rattle.plsearch.specs.Rows.{offer, solved, taken};
ghost use Rattle.plexpression.specs.Nodes.{IsOffHeap};
ghost use Rattle.pllinks.specs.declared.item.ClauseGoals.{ClauseGoals as OfRun};
ghost use Rattle.plstack.specs.Arguments.{IsArgument};
ghost use Rattle.plstack.specs.State.{goals_of, IsFit, IsList};
ghost use Rattle.plmachine.specs.Calculating.{HasSmallValue, HasValue, IsArithmetic, IsCalculation, NeedsNoCell};
ghost use Rattle.plmachine.specs.Machine.{local_of, IsBegun, Moved, Stays};
ghost use Rattle.plmachine.specs.Selected.{bound_at, StandsFor};
ghost use Rattle.plprogram.specs.Program.{Program as Given};

use crate::machine::{Machine, Outcome};
use crate::select::Source;
use plarith::error::ArithError;
use plcode::callee::Callee;
use pllinks::item::ClauseGoals;
use pllinks::link::Continuation;
use plnames::kind::{Arithmetic, BuiltIn, Comparison};
use plpredicates::arithmetic::compares;
use std::alloc::AllocError;

/// A goal of an arithmetic predicate that stands at a node of a clause's code, with the slots of a run for its variables, and the nodes of its arguments.
#[derive(Clone, Copy)]
pub struct Calculation {
    pub predicate: Arithmetic,
    pub run: ClauseGoals,
    pub node: u32,
    pub left: u32,
    pub right: u32,
}

impl Machine {
    /// The goal of an arithmetic predicate that stands in a clause at a source, if there is one.
    pub(crate) fn calculation(&self, source: &Source) -> Option<Calculation>
        requires { (t : Tree) × StandsFor self.now.stack source.now t }
        ensures some { (P : OfProgram) (t : Tree) → IsBegun P self.now → StandsFor self.now.stack source.now t → IfSome result (λ k. IsCalculation self.now.stack k t) }
        ensures source { IfSome result (λ k. source.now ≡ Source.Node k.run k.node) }
        ensures none { (P : OfProgram) (r : OfRun) (node : ℕ) (t : Tree) → IsBegun P self.now → source.now ≡ Source.Node r node → IsArgument self.now.stack r node t → IfNone result (IsArithmetic t → ⊥) }
    {
        let Source::Node(run, node) = source else {
            return None;
        };
        let _ = self.stack.env().heap();
        let pair = self.stack.pair_at(*node)?;
        let Callee::BuiltIn(called) = self.stack.code().callee_of_functor(pair.functor) else {
            return None;
        };
        let BuiltIn::Arithmetic(predicate) = called else {
            return None;
        };
        Some(Calculation {
            predicate,
            run: *run,
            node: *node,
            left: pair.left,
            right: pair.right,
        })
    }

    /// A goal of an arithmetic predicate that stands in a clause. Where it needs no cell, the heap stays as it is.
    pub(crate) fn calculate(
        &mut self,
        call: Calculation,
        rest: Continuation,
    ) -> Result<(), AllocError>
        requires begun { (P : Given) × IsBegun P self.old }
        requires call { (t : Tree) × IsCalculation self.old.stack call t }
        requires rest { IsList self.old.stack rest }
        requires fits { IsFit self.old.stack rest }
        ensures ok { (P : Given) → IsBegun P self.old → (t : Tree) (c : IsCalculation self.old.stack call t) → OnOk result (Moved P self.old self.new (offer (of_two call.predicate (bound_at self.old.stack call.run c.left) (bound_at self.old.stack call.run c.right) self.old.settings) (indicator t) (goals_of self.old.stack rest) self.old.stack.env.count (local_of self.old))) }
        ensures err { (P : Given) → IsBegun P self.old → OnErr result (Stays P self.old self.new) }
        ensures heap { (t : Tree) (c : IsCalculation self.old.stack call t) → NeedsNoCell self.old.stack call.run call.predicate c.left c.right → self.new.stack.env.heap ≡ self.old.stack.env.heap }
    {
        match call.predicate {
            Arithmetic::Is => self.evaluate(call, rest),
            Arithmetic::Compare(c) => self.compare(c, call, rest),
        }
    }

    /// is/2 (8.6.1).
    fn evaluate(&mut self, call: Calculation, rest: Continuation) -> Result<(), AllocError>
        requires begun { (P : Given) × IsBegun P self.old }
        requires call { (t : Tree) × IsCalculation self.old.stack call t }
        requires rest { IsList self.old.stack rest }
        requires fits { IsFit self.old.stack rest }
        ensures ok { (P : Given) → IsBegun P self.old → (t : Tree) (c : IsCalculation self.old.stack call t) → OnOk result (Moved P self.old self.new (offer (equals (bound_at self.old.stack call.run c.left) (eval (bound_at self.old.stack call.run c.right)) self.old.settings) (indicator t) (goals_of self.old.stack rest) self.old.stack.env.count (local_of self.old))) }
        ensures err { (P : Given) → IsBegun P self.old → OnErr result (Stays P self.old self.new) }
        ensures heap { (t : Tree) (c : IsCalculation self.old.stack call t) → IsOffHeap self.old.stack.env call.run.base c.left → HasSmallValue self.old.stack call.run c.right → self.new.stack.env.heap ≡ self.old.stack.env.heap }
    {
        match self.stack.eval_node(self.alloc, &call.run, call.right)? {
            Ok(number) => self.give_number(&call.run, call.left, number, rest),
            Err(error) => self.raise_for(&error, call, rest),
        }
    }

    /// `=:=`/2, `=\=`/2, `<`/2, `=<`/2, `>`/2 and `>=`/2; an error of the left expression comes first (8.7.1).
    fn compare(
        &mut self,
        c: Comparison,
        call: Calculation,
        rest: Continuation,
    ) -> Result<(), AllocError>
        requires begun { (P : Given) × IsBegun P self.old }
        requires call { (t : Tree) × IsCalculation self.old.stack call t }
        requires rest { IsList self.old.stack rest }
        requires fits { IsFit self.old.stack rest }
        ensures ok { (P : Given) → IsBegun P self.old → (t : Tree) (k : IsCalculation self.old.stack call t) → OnOk result (Moved P self.old self.new (offer (compared_of c (eval (bound_at self.old.stack call.run k.left)) (eval (bound_at self.old.stack call.run k.right)) self.old.settings) (indicator t) (goals_of self.old.stack rest) self.old.stack.env.count (local_of self.old))) }
        ensures err { (P : Given) → IsBegun P self.old → OnErr result (Stays P self.old self.new) }
        ensures heap { (t : Tree) (k : IsCalculation self.old.stack call t) → HasValue self.old.stack call.run k.left → HasValue self.old.stack call.run k.right → self.new.stack.env.heap ≡ self.old.stack.env.heap }
    {
        let x = match self.stack.eval_node(self.alloc, &call.run, call.left)? {
            Ok(x) => x,
            Err(error) => return self.raise_for(&error, call, rest),
        };
        let y = match self.stack.eval_node(self.alloc, &call.run, call.right)? {
            Ok(y) => y,
            Err(error) => return self.raise_for(&error, call, rest),
        };
        if compares(c, x, y) {
            self.go_on(rest);
        } else {
            self.give(Outcome::Fail);
        }
        Ok(())
    }

    /// Raises the error of an expression of a goal.
    fn raise_for(
        &mut self,
        error: &ArithError,
        call: Calculation,
        rest: Continuation,
    ) -> Result<(), AllocError>
        requires begun { (P : Given) × IsBegun P self.old }
        requires call { (t : Tree) × IsCalculation self.old.stack call t }
        requires rest { IsList self.old.stack rest }
        requires fits { IsFit self.old.stack rest }
        ensures ok { (P : Given) → IsBegun P self.old → (t : Tree) → IsCalculation self.old.stack call t → OnOk result (Moved P self.old self.new (raised (error_of error.now) (indicator t) (goals_of self.old.stack rest) (local_of self.old))) }
        ensures err { (P : Given) → IsBegun P self.old → OnErr result (Stays P self.old self.new) }
    {
        let term = error.term(self.alloc)?;
        let goal = Source::Node(call.run, call.node);
        self.raise_of(term, goal, rest)
    }

    /// The term of a node is unified with an integer: the one solution of a built-in predicate.
    fn give_number(
        &mut self,
        run: &ClauseGoals,
        node: u32,
        number: i64,
        rest: Continuation,
    ) -> Result<(), AllocError>
        requires node { (t : Tree) × IsArgument self.old.stack run.now node t }
        requires rest { IsList self.old.stack rest }
        requires fits { IsFit self.old.stack rest }
        ensures ok { (P : OfProgram) (t : Tree) → IsArgument self.old.stack run.now node t → OnOk result (Moved P self.old self.new (taken (solved (goals_of self.old.stack rest) self.old.stack.env.count (record { left = bound_at self.old.stack run.now t; right = int number; new = 0 })) (local_of self.old))) }
        ensures err { (P : OfProgram) → OnErr result (Stays P self.old self.new) }
        ensures heap { (t : Tree) → IsArgument self.old.stack run.now node t → IsOffHeap self.old.stack.env run.now.base t → FitsSigned w32 number → self.new.stack.env.heap ≡ self.old.stack.env.heap }
    {
        let v = self.integer(number)?;
        if self.stack.unify_number(run, node, v)? {
            self.go_on(rest);
            return Ok(());
        }
        self.give(Outcome::Fail);
        Ok(())
    }
}
