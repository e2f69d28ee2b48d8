//! The error terms (ISO/IEC 13211-1 7.12.2). Each call fails for want of memory alone.
ghost use Rattle.std.specs.Prelude.{◌≡◌, IfOk};
ghost use Rattle.plterm.specs.Tree.{atom, compound, trees};
ghost use Rattle.plterm.specs.Variables.{copied};
ghost use Rattle.plerror.specs.Errors.{alone, indicator_term as term_of, pair, instantiation_error, type_error, domain_error, permission_error, representation_error, syntax_error, evaluation_error, procedure_error, static_error, private_error, error_term};

use plterm::indicator::Indicator;
use plterm::name::Name;
use plterm::term::Term;
use std::alloc::{AllocError, Global};

/// An atom by its name, which is short.
pub fn atom(alloc: Global, name: &str) -> Result<Term, AllocError>
    ensures { IfOk result (λ t. t ≡ atom name.now) }
{
    let name = Name::new(alloc, name)?;
    named(alloc, name)
}

fn named(alloc: Global, name: Name) -> Result<Term, AllocError>
    ensures { IfOk result (λ t. t ≡ atom name) }
{
    match Term::atom(alloc, name) {
        Ok(term) => Ok(term),
        Err(_) => Err(AllocError),
    }
}

/// A compound by its name.
fn compound(alloc: Global, name: &str, args: Vec<Term>) -> Result<Term, AllocError>
    ensures { IfOk result (λ t. t ≡ compound name.now (trees args.items)) }
{
    let name = Name::new(alloc, name)?;
    match Term::compound(alloc, name, args) {
        Ok(term) => Ok(term),
        Err(_) => Err(AllocError),
    }
}

/// A compound of one word.
fn word(alloc: Global, name: &str, word: &str) -> Result<Term, AllocError>
    ensures { IfOk result (λ t. t ≡ alone name.now (atom word.now)) }
{
    let word = atom(alloc, word)?;
    compound(alloc, name, vec![in alloc; word]?)
}

/// A compound of a word and a term.
fn about(alloc: Global, name: &str, word: &str, culprit: Term) -> Result<Term, AllocError>
    ensures { IfOk result (λ t. t ≡ pair name.now (atom word.now) culprit) }
{
    let word = atom(alloc, word)?;
    compound(alloc, name, vec![in alloc; word, culprit]?)
}

/// An indicator as a term.
pub fn indicator_term(alloc: Global, p: &Indicator) -> Result<Term, AllocError>
    ensures { IfOk result (λ t. t ≡ term_of p.now) }
{
    let copy = p.name.copied()?;
    let name = named(alloc, copy)?;
    let arity = Term::int(alloc, i64::from(p.arity))?;
    compound(alloc, "/", vec![in alloc; name, arity]?)
}

/// A variable stands where a term is needed.
pub fn instantiation_error(alloc: Global) -> Result<Term, AllocError>
    ensures { IfOk result (λ t. t ≡ instantiation_error) }
{
    atom(alloc, "instantiation_error")
}

/// A term is of another type.
pub fn type_error(alloc: Global, kind: &str, culprit: Term) -> Result<Term, AllocError>
    ensures { IfOk result (λ t. t ≡ type_error kind.now culprit) }
{
    about(alloc, "type_error", kind, culprit)
}

/// A term is of the type, and outside of the domain.
pub fn domain_error(alloc: Global, domain: &str, culprit: Term) -> Result<Term, AllocError>
    ensures { IfOk result (λ t. t ≡ domain_error domain.now culprit) }
{
    about(alloc, "domain_error", domain, culprit)
}

/// What is asked for may not be done to this.
pub fn permission_error(
    alloc: Global,
    action: &str,
    kind: &str,
    culprit: Term,
) -> Result<Term, AllocError>
    ensures { IfOk result (λ t. t ≡ permission_error action.now kind.now culprit) }
{
    let action = atom(alloc, action)?;
    let kind = atom(alloc, kind)?;
    compound(
        alloc,
        "permission_error",
        vec![in alloc; action, kind, culprit]?,
    )
}

/// A limit of what can be represented was met.
pub fn representation_error(alloc: Global, limit: &str) -> Result<Term, AllocError>
    ensures { IfOk result (λ t. t ≡ representation_error limit.now) }
{
    word(alloc, "representation_error", limit)
}

/// A text is none that can be read.
pub fn syntax_error(alloc: Global, fault: &str) -> Result<Term, AllocError>
    ensures { IfOk result (λ t. t ≡ syntax_error fault.now) }
{
    word(alloc, "syntax_error", fault)
}

/// An expression has no value.
pub fn evaluation_error(alloc: Global, fault: &str) -> Result<Term, AllocError>
    ensures { IfOk result (λ t. t ≡ evaluation_error fault.now) }
{
    word(alloc, "evaluation_error", fault)
}

/// A procedure does not exist.
pub fn procedure_error(alloc: Global, p: &Indicator) -> Result<Term, AllocError>
    ensures { IfOk result (λ t. t ≡ procedure_error p.now) }
{
    let culprit = indicator_term(alloc, p)?;
    about(alloc, "existence_error", "procedure", culprit)
}

/// A procedure is static.
pub fn static_error(alloc: Global, p: &Indicator) -> Result<Term, AllocError>
    ensures { IfOk result (λ t. t ≡ static_error p.now) }
{
    let culprit = indicator_term(alloc, p)?;
    permission_error(alloc, "modify", "static_procedure", culprit)
}

/// The clauses of a procedure are not told.
pub fn private_error(alloc: Global, p: &Indicator) -> Result<Term, AllocError>
    ensures { IfOk result (λ t. t ≡ private_error p.now) }
{
    let culprit = indicator_term(alloc, p)?;
    permission_error(alloc, "access", "private_procedure", culprit)
}

/// The ball of an error that a predicate raises: its variables are 0, 1, .. by first occurrence.
pub fn ball(alloc: Global, error: Term, p: &Indicator) -> Result<Term, AllocError>
    ensures { IfOk result (λ t. t ≡ copied 0 (error_term error p.now)) }
{
    let context = indicator_term(alloc, p)?;
    let term = compound(alloc, "error", vec![in alloc; error, context]?)?;
    term.copy(alloc, 0)
}
