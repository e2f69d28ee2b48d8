//! The clauses of a static procedure, tried in their order.
ghost use Rattle.std.specs.Prelude.{◌≡◌, ℕ, ◌≤◌, List, length, None, IfOk, IfSome, IfNone};
ghost use Rattle.plsubst.specs.Subst.{shift};
ghost use Rattle.plsubst.specs.Unify.{unify};
ghost use Rattle.plclause.specs.Clause.{Clause};
ghost use Rattle.plsearch.specs.Forms.{arguments};
ghost use Rattle.plcode.specs.Steps.{Text};
ghost use Rattle.plenv.specs.Env.{cut, renamed, IsMark};
ghost use Rattle.plenv.specs.Changes.{Keeps};
ghost use Rattle.plstack.specs.Places.{called};
ghost use Rattle.plstack.specs.Fits.{Fitted, Finds, FindsNone};
ghost use Rattle.plstack.specs.Attempts.{IsAttempt, IsTried};

use plcells::cell::Cell;
use plcode::clause::ClauseCode;
use plcode::index::Procedure;
use plcode::key::Key;
use plcode::node::Node;
use plenv::env::Environment;
use plenv::slot::{Mark, Row};
use plhead::head::{Head, Matcher};
use std::alloc::AllocError;

/// A call of a static procedure: the procedure, the nodes of its clauses, the key and the values of the goal's arguments, and the mark of the
/// environment at the call.
#[derive(Clone, Copy)]
pub struct Attempt<'a> {
    pub procedure: &'a Procedure,
    pub nodes: &'a [Node],
    pub key: Key,
    pub values: &'a [Cell],
    pub mark: Mark,
}

/// A clause that fits: its number among the procedure's clauses, and where its slots begin.
#[derive(Clone, Copy, Debug, PartialEq, Eq)]
pub struct Found {
    pub place: usize,
    pub base: u32,
}

/// A clause that fits a call: its code, where its slots begin, and the number of the next clause that may fit, if there is one.
#[derive(Clone, Copy)]
pub struct Hit {
    pub clause: ClauseCode,
    pub base: u32,
    pub next: Option<usize>,
}

/// Unifies a clause's head with the goal, its variables new: where its slots begin, if it fits. Where it does not, or memory gives out, an undo
/// to a mark in use gives back what was changed.
#[inline(always)]
fn try_clause(
    env: &mut Environment,
    matcher: &mut Matcher,
    call: &Attempt<'_>,
    clause: ClauseCode,
) -> Result<Option<u32>, AllocError>
    requires { (c : Text) × (n : List ℕ) × (x : Clause) × IsTried c env.old n call.now.values.now call.now.nodes.now clause x }
    ensures some { IfOk result (λ o. IfSome o (λ base. (c : Text) (n : List ℕ) (x : Clause) → IsTried c env.old n call.now.values.now call.now.nodes.now clause x → Fitted env.old env.new (called env.old.heap n call.now.values.now) base x)) }
    ensures none { IfOk result (λ o. IfNone o ((c : Text) (n : List ℕ) (x : Clause) → IsTried c env.old n call.now.values.now call.now.nodes.now clause x → unify (called env.old.heap n call.now.values.now) (shift env.old.count x.head) ≡ None)) }
    ensures keeps { Keeps env.old env.new }
{
    if usize::from(clause.arity) != call.values.len() {
        return Ok(None);
    }
    let _ = env.heap();
    let base = env.enter(clause.variables)?;
    let row = Row {
        at: clause.head,
        count: clause.arity,
    };
    if matcher.fit(env, call.nodes, Head { row, base }, call.values)? {
        Ok(Some(base))
    } else {
        Ok(None)
    }
}

/// The first clause from a number on that fits the goal. Where there is none all is as it was at the call; where memory gives out, an undo to its
/// mark gives back what was changed.
#[inline(always)]
pub fn first_fit(
    env: &mut Environment,
    matcher: &mut Matcher,
    call: &Attempt<'_>,
    from: usize,
) -> Result<Option<Found>, AllocError>
    requires attempt { (c : Text) × (n : List ℕ) × (xs : List Clause) × IsAttempt c env.old n call.now.values.now call.now.key call.now.nodes.now call.now.procedure.now xs }
    requires within { from ≤ length call.now.procedure.now }
    requires mark { IsMark call.now.mark env.old }
    requires now { cut call.now.mark env.old ≡ env.old }
    ensures some { IfOk result (λ o. IfSome o (λ found. (c : Text) (n : List ℕ) (xs : List Clause) → IsAttempt c env.old n call.now.values.now call.now.key call.now.nodes.now call.now.procedure.now xs → Finds env.old env.new (called env.old.heap n call.now.values.now) xs from found)) }
    ensures none { IfOk result (λ o. IfNone o ((c : Text) (n : List ℕ) (xs : List Clause) → IsAttempt c env.old n call.now.values.now call.now.key call.now.nodes.now call.now.procedure.now xs → FindsNone env.old (called env.old.heap n call.now.values.now) xs from)) }
    ensures same { IfOk result (λ o. IfNone o (env.new ≡ renamed env.old env.new.heap.names)) }
    ensures keeps { Keeps env.old env.new }
{
    let _ = env.heap();
    let mut from = from;
    'clauses: while let Some(place) = call.procedure.next(call.key, from) {
        let _ = env.heap();
        let clause = call.procedure.clauses()[place];
        if let Some(base) = try_clause(env, matcher, call, clause)? {
            return Ok(Some(Found { place, base }));
        }
        let _ = env.heap();
        env.undo(call.mark);
        from = place + 1;
    }
    Ok(None)
}
