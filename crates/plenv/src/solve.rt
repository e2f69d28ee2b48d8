//! Equations between terms.
ghost use Rattle.std.specs.Prelude.{◌≡◌, true, false, None, IfOk, OnErr};
ghost use Rattle.plsubst.specs.Unify.{unify as unifier_of};
ghost use Rattle.plcells.specs.Equations.{IsEquation, left_of, right_of};
ghost use Rattle.plenv.specs.Changes.{Keeps, Stays};
ghost use Rattle.plenv.specs.Solving.{Solves};

use crate::env::Environment;
use plcells::equation::Equation;
use std::alloc::{AllocError, Global};

impl Environment {
    /// Unifies the two terms of an equation in a choice, its new variables numbered from the count on: whether they have a unifier. Where they
    /// have none, or memory gives out, an undo to a mark in use gives back what was changed.
    pub fn solve_in_choice(&mut self, alloc: Global, equation: Equation) -> Result<bool, AllocError>
        requires { IsEquation self.old.heap equation }
        ensures yes { IfOk result (λ fits. fits ≡ true → Solves self.old self.new (left_of self.old.heap self.old.count equation) (right_of self.old.heap self.old.count equation) equation.new) }
        ensures no { IfOk result (λ fits. fits ≡ false → unifier_of (left_of self.old.heap self.old.count equation) (right_of self.old.heap self.old.count equation) ≡ None) }
        ensures keeps { Keeps self.old self.new }
    {
        let Equation {
            left,
            right,
            mut values,
            new,
        } = equation;
        let mut added = self.new_values(alloc, new)?;
        values.append(&mut added)?;
        let a = self.put_over(alloc, &left, &values)?;
        let b = self.put_over(alloc, &right, &values)?;
        self.unify_in_choice(a, b)
    }

    /// Unifies the two terms of an equation, its new variables numbered from the count on: whether they have a unifier. Where they have none, or
    /// memory gives out, all stands for what it did.
    pub fn solve(&mut self, alloc: Global, equation: Equation) -> Result<bool, AllocError>
        requires { IsEquation self.old.heap equation }
        ensures yes { IfOk result (λ fits. fits ≡ true → Solves self.old self.new (left_of self.old.heap self.old.count equation) (right_of self.old.heap self.old.count equation) equation.new) }
        ensures no { IfOk result (λ fits. fits ≡ false → (unifier_of (left_of self.old.heap self.old.count equation) (right_of self.old.heap self.old.count equation) ≡ None) × Stays self.old self.new) }
        ensures err { OnErr result (Stays self.old self.new) }
    {
        let cells = self.heap.boundary();
        let slots = self.boundary;
        let mark = self.mark();
        let solved = self.solve_in_choice(alloc, equation);
        let _ = self.heap();
        match solved {
            Ok(true) => {
                self.forget(cells, slots);
                Ok(true)
            }
            Ok(false) => {
                self.undo(mark);
                self.forget(cells, slots);
                Ok(false)
            }
            Err(e) => {
                self.undo(mark);
                self.forget(cells, slots);
                Err(e)
            }
        }
    }
}
