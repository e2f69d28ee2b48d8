//! Expressions among the goals of clauses: they are looked at by their nodes, and nothing is put.
ghost use Rattle.std.specs.Prelude.{◌≡◌, ℤ, [], ◌∷◌, true, false, None, IfOk, IfSome, IfNone, OnErr, List, ℕ};
ghost use Rattle.plterm.specs.Tree.{compound, int, trees, Tree};
ghost use Rattle.plsubst.specs.Subst.{bind};
ghost use Rattle.plsubst.specs.Unify.{unify};
ghost use Rattle.plcells.specs.Store.{value, IsValue};
ghost use Rattle.plarith.specs.Evaluation.{eval};
ghost use Rattle.plenv.specs.Env.{over};
ghost use Rattle.plexpression.specs.Nodes.{IsOffHeap};
ghost use Rattle.pllinks.specs.declared.item.ClauseGoals.{ClauseGoals as OfRun};
ghost use Rattle.plstack.specs.State.{Extends, UnifiesTerms};
ghost use Rattle.plstack.specs.Arguments.{IsArgument, IsPair};

use crate::stack::Stack;
use plarith::error::Evaluated;
use plcells::cell::Cell;
use plexpression::clause::eval_node;
use plexpression::number::unify_number;
use plexpression::pair::{Pair, pair_at};
use pllinks::item::ClauseGoals;
use std::alloc::{AllocError, Global};

impl Stack {
    /// The compound of two arguments that the term of a node of a clause is, if it is one.
    pub fn pair_at(&self, node: u32) -> Option<Pair>
        requires { (r : OfRun) × ((t : Tree) × IsArgument self.now r node t) }
        ensures some { (r : OfRun) (t : Tree) → IsArgument self.now r node t → IfSome result (IsPair self.now r t) }
        ensures none { (r : OfRun) (t : Tree) → IsArgument self.now r node t → IfNone result ((f : List ℕ) (a b : Tree) → t ≡ compound f (trees (a ∷ b ∷ [])) → ⊥) }
    {
        let _ = self.env.heap();
        pair_at(self.basis.code.code().nodes(), node)
    }

    /// What the term of a node of a clause, whose slots are those of a run, comes to as an expression, or its error (ISO/IEC 13211-1 7.9, 9.1.4).
    pub fn eval_node(
        &self,
        alloc: Global,
        run: &ClauseGoals,
        node: u32,
    ) -> Result<Evaluated, AllocError>
        requires { (t : Tree) × IsArgument self.now run.now node t }
        ensures { (t : Tree) → IsArgument self.now run.now node t → IfOk result (λ found. found ≡ eval (bind (over self.now.env run.now.base) t)) }
    {
        let _ = self.env.heap();
        eval_node(
            alloc,
            &self.env,
            self.basis.code.code().nodes(),
            node,
            run.base,
        )
    }

    /// Unifies the term of a node of a clause, whose slots are those of a run, with an integer's value: whether they have a unifier. Where they have
    /// none, or memory gives out, all stands for what it did. The heap changes only where a variable that stands there is bound.
    pub fn unify_number(
        &mut self,
        run: &ClauseGoals,
        node: u32,
        v: Cell,
    ) -> Result<bool, AllocError>
        requires node { (t : Tree) × IsArgument self.old run.now node t }
        requires value { IsValue self.old.env.heap v }
        requires number { (i : ℤ) × (value self.old.env.heap v ≡ int i) }
        ensures yes { (t : Tree) → IsArgument self.old run.now node t → IfOk result (λ fits. fits ≡ true → UnifiesTerms self.old self.new (bind (over self.old.env run.now.base) t) (value self.old.env.heap v)) }
        ensures no { (t : Tree) → IsArgument self.old run.now node t → IfOk result (λ fits. fits ≡ false → unify (bind (over self.old.env run.now.base) t) (value self.old.env.heap v) ≡ None) }
        ensures same { IfOk result (λ fits. fits ≡ false → Extends self.old self.new × (self.new.env.count ≡ self.old.env.count)) }
        ensures err { OnErr result (Extends self.old self.new × (self.new.env.count ≡ self.old.env.count)) }
        ensures heap { (t : Tree) → IsArgument self.old run.now node t → IsOffHeap self.old.env run.now.base t → self.new.env.heap ≡ self.old.env.heap }
    {
        let _ = self.env.heap();
        let fits = unify_number(
            &mut self.env,
            self.basis.code.code().nodes(),
            node,
            run.base,
            v,
        );
        let _ = self.env.heap();
        fits
    }
}
