//! What a clause of a program's text does.
ghost use Rattle.std.specs.Prelude.{◌≡◌, IfOk, codes};
ghost use Rattle.plclause.specs.Clausal.{clausal};
ghost use Rattle.plclause.specs.Lists.{only_argument};
ghost use Rattle.plload.specs.Meaning.{form_meaning, clause_or, is_reserved, meaning};
ghost use Rattle.plload.specs.Shown.{shown};

use crate::directive::{directive_of, goal_of};
use crate::error::RefusalKind;
use plclause::clause::Clause;
use plclause::form::{ClauseForm, clause_of};
use plclause::lists::argument_of;
use plnames::table::NameTable;
use plops::operator::Kind;
use plprogram::change::Flag;
use plterm::indicator::Indicator;
use plterm::name::Name;
use plterm::term::Term;
use std::alloc::{AllocError, Global};

/// What a clause of a program's text does (ISO/IEC 13211-1 6.2.1).
#[derive(Drop)]
pub enum Meaning {
    /// It is a clause of its procedure.
    Adds(Clause),
    /// It is a goal of main.
    Runs(Term),
    /// It names dynamic procedures.
    Declares(Vec<Indicator>),
    /// It makes names operators of a priority and a kind; of priority 0, none.
    Operates(u16, Kind, Vec<Name>),
    /// It sets a flag.
    Sets(Flag),
    /// It has no effect.
    Passes,
    /// It is refused.
    Refused(RefusalKind),
}

/// What the clause that this term spells does.
pub fn meaning_of(alloc: Global, names: &NameTable, term: &Term) -> Result<Meaning, AllocError>
    ensures { IfOk result (λ m. shown m ≡ meaning term.now) }
{
    match argument_of(&term.root(), ":-") {
        Some(directive) => directive_of(alloc, names, &directive),
        None => other_meaning(alloc, names, term),
    }
}

/// What a goal of main behind `?-` or a clause does.
fn other_meaning(alloc: Global, names: &NameTable, term: &Term) -> Result<Meaning, AllocError>
    ensures { IfOk result (λ m. shown m ≡ clause_or term.now (only_argument (codes "?-") term.now)) }
{
    match argument_of(&term.root(), "?-") {
        Some(goal) => goal_of(alloc, &goal),
        None => clause_meaning(alloc, names, term),
    }
}

/// What a clause does that is no directive.
fn clause_meaning(alloc: Global, names: &NameTable, term: &Term) -> Result<Meaning, AllocError>
    ensures { IfOk result (λ m. shown m ≡ form_meaning (clausal term.now)) }
{
    match clause_of(alloc, term)? {
        ClauseForm::NoHead | ClauseForm::BadHead(_) | ClauseForm::BadBody(_) => Ok(Meaning::Refused(
            RefusalKind::NotCallable,
        )),
        ClauseForm::IsClause(clause) => {
            if is_reserved(names, &clause.indicator()?) {
                Ok(Meaning::Refused(RefusalKind::StaticRedefined))
            } else {
                Ok(Meaning::Adds(clause))
            }
        }
    }
}

/// Whether no program may define the procedure.
fn is_reserved(names: &NameTable, indicator: &Indicator) -> bool
    ensures { result ≡ is_reserved indicator.now }
{
    names.is_fixed(indicator) || (indicator.name.as_str() == "-->" && indicator.arity == 2)
}
