//! Whether a goal unifies with the head of a clause (ISO/IEC 13211-1 8.9.5).
ghost use Rattle.std.specs.Prelude.{◌≡◌, is_some, true, None, IfOk};
ghost use Rattle.plsubst.specs.Subst.{shift};
ghost use Rattle.plsubst.specs.Unify.{unify};
ghost use Rattle.plcells.specs.Store.{value, IsValue};
ghost use Rattle.plenv.specs.Changes.{Keeps};
ghost use Rattle.plenv.specs.Env.{cut, renamed, IsEnv, IsMark};
ghost use Rattle.plstack.specs.State.{Extends};

use crate::copier::Copier;
use crate::stack::Stack;
use crate::walk::put_head;
use plbind::apart::are_apart;
use plcells::cell::Cell;
use plclause::clause::Clause;
use plenv::env::Environment;
use plenv::slot::Mark;
use std::alloc::AllocError;

/// Whether a goal is seen to have no unifier with a clause's head, without putting that.
pub(crate) fn misses_head(env: &Environment, goal: &Cell, clause: &Clause) -> bool
    requires { IsValue env.now.heap goal.now }
    ensures { result ≡ true → unify (value env.now.heap goal.now) (shift env.now.count clause.now.head) ≡ None }
{
    are_apart(env.heap(), *goal, &clause.head().root())
}

/// Unifies a goal with a clause's head, its variables new: whether they have a unifier.
fn try_head(
    env: &mut Environment,
    copier: &mut Copier,
    goal: Cell,
    clause: &Clause,
) -> Result<bool, AllocError>
    requires { IsValue env.old.heap goal }
    ensures is { IfOk result (λ has. has ≡ is_some (unify (value env.old.heap goal) (shift env.old.count clause.now.head))) }
    ensures keeps { Keeps env.old env.new }
{
    if misses_head(env, &goal, clause) {
        return Ok(false);
    }
    let head = put_head(env, copier, clause)?;
    env.unify_in_choice(goal, head.value)
}

/// Whether a goal unifies with a clause's head, its variables new. All is as it was at a mark of now but for more names.
fn fits_head(
    env: &mut Environment,
    copier: &mut Copier,
    goal: Cell,
    clause: &Clause,
    mark: Mark,
) -> Result<bool, AllocError>
    requires goal { IsValue env.old.heap goal }
    requires mark { IsMark mark env.old }
    requires now { cut mark env.old ≡ env.old }
    ensures is { IfOk result (λ has. has ≡ is_some (unify (value env.old.heap goal) (shift env.old.count clause.now.head))) }
    ensures same { env.new ≡ renamed env.old env.new.heap.names }
    ensures keeps { Keeps env.old env.new }
    ensures env { IsEnv env.new }
{
    let has = try_head(env, copier, goal, clause);
    let _ = env.heap();
    env.undo(mark);
    let _ = env.heap();
    has
}

impl Stack {
    /// Whether a goal unifies with a clause's head, its variables new. All stands for what it did.
    pub fn has_head(&mut self, goal: Cell, clause: &Clause) -> Result<bool, AllocError>
        requires { IsValue self.old.env.heap goal }
        ensures is { IfOk result (λ has. has ≡ is_some (unify (value self.old.env.heap goal) (shift self.old.env.count clause.now.head))) }
        ensures count { self.new.env.count ≡ self.old.env.count }
        ensures stays { Extends self.old self.new }
    {
        let marks = self.marks();
        fits_head(&mut self.env, &mut self.copier, goal, clause, marks.env)
    }
}
