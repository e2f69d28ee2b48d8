//! Terms of a stack.
ghost use Rattle.std.specs.Prelude.{◌≡◌, ◌+◌, length, true, false, None, IfOk, OnOk, OnErr};
ghost use Rattle.plterm.specs.Variables.{copied, variables};
ghost use Rattle.plsubst.specs.Unify.{unify as unifier_of};
ghost use Rattle.plcells.specs.Equations.{IsEquation, left_of, right_of};
ghost use Rattle.plcells.specs.Store.{IsValue, value};
ghost use Rattle.plread.specs.Texts.{listed};
ghost use Rattle.plsearch.specs.Collecting.{copies_from, count_new, renumbered};
ghost use Rattle.plstack.specs.State.{Extends, Solves, Unifies};
ghost use Rattle.plstack.specs.Arguments.{KeepsArguments};

use crate::stack::Stack;
use plcells::cell::Cell;
use plcells::equation::Equation;
use plcollect::collection::Collection;
use pllinks::level::Level;
use plterm::term::Term;
use std::alloc::{AllocError, Global};

impl Stack {
    /// Unifies two values: whether they have a unifier. Where they have none, or memory gives out, all is as it was.
    pub fn unify(&mut self, a: Cell, b: Cell) -> Result<bool, AllocError>
        requires left { IsValue self.old.env.heap a }
        requires right { IsValue self.old.env.heap b }
        ensures yes { IfOk result (λ fits. fits ≡ true → Unifies self.old self.new a b) }
        ensures no { IfOk result (λ fits. fits ≡ false → (unifier_of (value self.old.env.heap a) (value self.old.env.heap b) ≡ None) × (self.new ≡ self.old)) }
        ensures err { OnErr result (self.new ≡ self.old) }
    {
        let fits = self.env.unify(a, b);
        let _ = self.env.heap();
        fits
    }

    /// Unifies the two terms of an equation, its new variables numbered from the count on: whether they have a unifier. Where they have none, or
    /// memory gives out, all stands for what it did.
    pub fn solve(&mut self, alloc: Global, equation: Equation) -> Result<bool, AllocError>
        requires { IsEquation self.old.env.heap equation }
        ensures yes { IfOk result (λ fits. fits ≡ true → Solves self.old self.new equation) }
        ensures no { IfOk result (λ fits. fits ≡ false → unifier_of (left_of self.old.env.heap self.old.env.count equation) (right_of self.old.env.heap self.old.env.count equation) ≡ None) }
        ensures same { IfOk result (λ fits. fits ≡ false → Extends self.old self.new × (self.new.env.count ≡ self.old.env.count)) }
        ensures err { OnErr result (Extends self.old self.new × (self.new.env.count ≡ self.old.env.count)) }
    {
        let solved = self.env.solve(alloc, equation);
        let _ = self.env.heap();
        solved
    }

    /// Puts a copy of a term, its variables new: its value. After an `Err` all stands for what it did.
    pub fn put_copy(&mut self, alloc: Global, given: &Term) -> Result<Cell, AllocError>
        ensures value { IfOk result (λ v. IsValue self.new.env.heap v) }
        ensures is { IfOk result (λ v. value self.new.env.heap v ≡ copied self.old.env.count given.now) }
        ensures count { OnOk result (self.new.env.count ≡ self.old.env.count + length (variables given.now)) }
        ensures same_count { OnErr result (self.new.env.count ≡ self.old.env.count) }
        ensures arguments { KeepsArguments self.old self.new }
        ensures stays { Extends self.old self.new }
    {
        let copy = given.copy(alloc, 0)?;
        let variables = given.variables(alloc)?;
        let Ok(count) = u32::try_from(variables.len()) else {
            return Err(AllocError);
        };
        let put = self.env.put_term(alloc, &copy, count);
        let _ = self.env.heap();
        put
    }

    /// Puts the list of the copies that are kept for handlers from a level on, their variables new: its value. After an `Err` all stands for
    /// what it did.
    pub fn put_list(
        &mut self,
        alloc: Global,
        kept: &Collection,
        level: Level,
    ) -> Result<Cell, AllocError>
        ensures value { IfOk result (λ v. IsValue self.new.env.heap v) }
        ensures is { IfOk result (λ v. value self.new.env.heap v ≡ listed (renumbered self.old.env.count (copies_from level kept.now))) }
        ensures count { OnOk result (self.new.env.count ≡ self.old.env.count + count_new (copies_from level kept.now)) }
        ensures stays { Extends self.old self.new }
    {
        let put = kept.put_list(&mut self.env, alloc, level);
        let _ = self.env.heap();
        put
    }
}
