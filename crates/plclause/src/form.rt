//! The clause that a term spells.
ghost use Rattle.std.specs.Prelude.{◌≡◌, IfOk, codes};
ghost use Rattle.plterm.specs.Tree.{atom};
ghost use Rattle.plclause.specs.Clausal.{clausal, clause_parts, neck_parts};
ghost use Rattle.plclause.specs.Heads.{head_of};

use crate::clause::Clause;
use crate::convert::convert;
use crate::shared::SharedTerm;
use plterm::name::Name;
use plterm::node::Node;
use plterm::term::Term;
use plterm::walk::{Shape, TermRef};
use std::alloc::{AllocError, Global};

/// What a term is as a clause.
#[derive(Drop)]
pub enum ClauseForm {
    /// The head is a variable.
    NoHead,
    /// The head is this number.
    BadHead(Term),
    /// The body is this term, which is not convertible.
    BadBody(Term),
    /// The term spells this clause.
    IsClause(Clause),
}

/// The clause that a term spells: `Head :- Body`, or a head alone with the body `true` (ISO/IEC 13211-1 7.6.1 and 7.6.2).
/// The head is judged before the body.
pub fn clause_of(alloc: Global, term: &Term) -> Result<ClauseForm, AllocError>
    ensures { IfOk result (λ form. form ≡ clausal term.now) }
{
    let root = term.root();
    match parted(&root) {
        Some((head, body)) => form_of(alloc, &head, &body),
        None => fact_of(alloc, term.copied(alloc)?, &truth(alloc)?),
    }
}

/// The same for a caller that gives the term away and has the atom `true` as a term: of a head alone, the body is that term, shared.
pub fn clause_with(alloc: Global, term: Term, truth: &SharedTerm) -> Result<ClauseForm, AllocError>
    requires truth { truth.now ≡ atom (codes "true") }
    ensures { IfOk result (λ form. form ≡ clausal term) }
{
    if let Some((head, body)) = parted(&term.root()) {
        return form_of(alloc, &head, &body);
    }
    fact_of(alloc, term, truth)
}

/// The head and the body of a term `Head :- Body`.
fn parted<'a>(term: &TermRef<'a>) -> Option<(TermRef<'a>, TermRef<'a>)>
    ensures { result ≡ neck_parts term.now }
{
    match term.shape() {
        Shape::Compound(name, mut args) => {
            if name.as_str() != ":-" {
                return None;
            }
            let head = args.next_term()?;
            let body = args.next_term()?;
            if args.is_empty() {
                Some((head, body))
            } else {
                None
            }
        }
        Shape::Var(_) | Shape::Int(_) | Shape::Atom(_) => None,
    }
}

/// The atom `true`, to be shared by facts.
pub fn truth(alloc: Global) -> Result<SharedTerm, AllocError>
    ensures { IfOk result (λ t. t ≡ atom (codes "true")) }
{
    SharedTerm::new(alloc, true_term(alloc)?)
}

/// The atom `true`.
fn true_term(alloc: Global) -> Result<Term, AllocError>
    ensures { IfOk result (λ t. t ≡ atom (codes "true")) }
{
    let name = Name::new(alloc, "true")?;
    let nodes = vec![in alloc; Node::Atom(name)]?;
    Ok(Term::from_prefix(nodes))
}

/// What the head of a clause may be.
#[derive(Clone, Copy)]
pub(crate) enum Head {
    Variable,
    Number,
    Callable,
}

fn head_of(term: &TermRef<'_>) -> Head
    ensures { result ≡ head_of term.now }
{
    match term.shape() {
        Shape::Var(_) => Head::Variable,
        Shape::Int(_) => Head::Number,
        Shape::Atom(_) | Shape::Compound(_, _) => Head::Callable,
    }
}

/// The clause of a head and a body.
fn form_of(alloc: Global, head: &TermRef<'_>, body: &TermRef<'_>) -> Result<ClauseForm, AllocError>
    ensures { IfOk result (λ form. form ≡ clause_parts head.now body.now) }
{
    match head.shape() {
        Shape::Var(_) => return Ok(ClauseForm::NoHead),
        Shape::Int(_) => return Ok(ClauseForm::BadHead(head.copied(alloc)?)),
        Shape::Atom(_) | Shape::Compound(_, _) => {}
    }
    match convert(alloc, body)? {
        None => Ok(ClauseForm::BadBody(body.copied(alloc)?)),
        Some(goal) => Ok(ClauseForm::IsClause(Clause::new(alloc, head, &goal.root())?)),
    }
}

/// The clause of a head alone, whose body is `true`: nothing is converted.
fn fact_of(alloc: Global, head: Term, truth: &SharedTerm) -> Result<ClauseForm, AllocError>
    requires truth { truth.now ≡ atom (codes "true") }
    ensures { IfOk result (λ form. form ≡ clause_parts head (atom (codes "true"))) }
{
    match head_of(&head.root()) {
        Head::Variable => Ok(ClauseForm::NoHead),
        Head::Number => Ok(ClauseForm::BadHead(head)),
        Head::Callable => {
            let clause = Clause::fact(alloc, head, truth)?;
            Ok(ClauseForm::IsClause(clause))
        }
    }
}
