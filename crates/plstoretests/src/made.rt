//! Clauses, procedures and batches that tests are made of.
ghost use Rattle.std.specs.Prelude.{◌≡◌, IfOk};
ghost use Rattle.plterm.specs.Tree.{atom};
ghost use Rattle.plclause.specs.Soundness.{IsCallable};

use plclause::clause::Clause;
use plevent::{Batch, ClauseName, Update};
use plterm::error::TermError;
use plterm::indicator::Indicator;
use plterm::name::Name;
use plterm::term::Term;
use std::alloc::{AllocError, Global};

/// The name p with an arity.
pub(crate) fn indicator(alloc: Global, arity: u16) -> Result<Indicator, AllocError> {
    let name = Name::new(alloc, "p")?;
    Ok(Indicator { name, arity })
}

/// The atom of a name.
fn atom_of(alloc: Global, name: &str) -> Result<Term, TermError>
    ensures { IfOk result (λ t. t ≡ atom name.now) }
{
    Term::atom(alloc, Name::new(alloc, name)?)
}

/// The clause of this head with this atom as its body.
fn clause_of(alloc: Global, head: &Term, body: &str) -> Result<Clause, TermError>
    requires { IsCallable head.now }
{
    let body = atom_of(alloc, body)?;
    Ok(Clause::new(alloc, &head.root(), &body.root())?)
}

/// The clause of p/0 with this atom as its body.
pub(crate) fn clause(alloc: Global, body: &str) -> Result<Clause, TermError> {
    let head = atom_of(alloc, "p")?;
    clause_of(alloc, &head, body)
}

/// The compound of a name with this argument.
fn compound(alloc: Global, name: &str, arg: Term) -> Result<Term, TermError>
    ensures { IfOk result (λ t. IsCallable t) }
{
    let args = vec![in alloc; arg]?;
    Term::compound(alloc, Name::new(alloc, name)?, args)
}

/// The first argument of a clause of p/1.
#[derive(Clone, Copy)]
pub(crate) enum First {
    Variable,
    Int(i64),
    /// The compound f(N) of a number.
    Compound(i64),
}

/// The term that a first argument is.
fn argument(alloc: Global, first: First) -> Result<Term, TermError> {
    match first {
        First::Variable => Ok(Term::var(alloc, 0)?),
        First::Int(value) => Ok(Term::int(alloc, value)?),
        First::Compound(value) => compound(alloc, "f", Term::int(alloc, value)?),
    }
}

/// The clause of p/1 with this first argument and the body true.
pub(crate) fn fact(alloc: Global, first: First) -> Result<Clause, TermError> {
    let head = compound(alloc, "p", argument(alloc, first)?)?;
    clause_of(alloc, &head, "true")
}

/// What an update does.
#[derive(Clone, Copy)]
pub(crate) enum Change {
    /// The clause of p/0 with this atom as its body, before all others.
    First(&'static str),
    /// The same behind all others.
    Last(&'static str),
    /// The clause of p/1 with this first argument, before all others.
    FirstFact(First),
    /// The same behind all others.
    LastFact(First),
    /// The clause at a place and of a number is erased.
    Erase(u64, u64),
    /// The clause that the own update of a number made is erased.
    EraseOwn(u64),
    /// p of an arity is declared.
    Declare(u16),
}

/// The update that does this.
pub(crate) fn update(alloc: Global, change: Change) -> Result<Update, TermError> {
    match change {
        Change::First(body) => Ok(Update::First(clause(alloc, body)?)),
        Change::Last(body) => Ok(Update::Last(clause(alloc, body)?)),
        Change::FirstFact(first) => Ok(Update::First(fact(alloc, first)?)),
        Change::LastFact(first) => Ok(Update::Last(fact(alloc, first)?)),
        Change::Erase(place, number) => Ok(Update::Erase(ClauseName { place, number })),
        Change::EraseOwn(number) => Ok(Update::EraseOwn(number)),
        Change::Declare(arity) => Ok(Update::Declare(indicator(alloc, arity)?)),
    }
}

/// Adds the update that does this.
fn put_update(alloc: Global, updates: &mut Vec<Update>, change: Change) -> Result<(), TermError> {
    let update = update(alloc, change)?;
    updates.push(update)?;
    Ok(())
}

/// Adds the updates that do this, one after the other.
pub(crate) fn put_updates(
    alloc: Global,
    updates: &mut Vec<Update>,
    changes: &[Change],
) -> Result<(), TermError> {
    for change in changes {
        put_update(alloc, updates, *change)?;
    }
    Ok(())
}

/// The batch of updates that do this, one after the other.
pub(crate) fn batch(alloc: Global, changes: &[Change]) -> Result<Batch, TermError> {
    let mut updates = Vec::new(alloc);
    put_updates(alloc, &mut updates, changes)?;
    Ok(Batch::new(alloc, updates))
}
