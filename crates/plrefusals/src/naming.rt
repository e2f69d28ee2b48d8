//! The procedures that dynamic/1 declares (ISO/IEC 13211-1 7.4.2.1).
ghost use Rattle.std.specs.Prelude.{◌≡◌, IfOk, find, map};
ghost use Rattle.std.specs.Option.{option_copied};
ghost use Rattle.std.specs.List.{list_any};
ghost use Rattle.plclause.specs.Named.{is_open};
ghost use Rattle.plsearch.specs.Rows.{is_static as is_static_procedure};
ghost use Rattle.plevent.specs.declared.update.Update.TheVariants.{Declare};
ghost use Rattle.plrefusals.specs.Naming.{IsDeclared, IsNaming, AreDeclared};

use crate::refusal::is_static;
use plclause::named::{indicator_of, is_open};
use plerror::error;
use plevent::update::Update;
use plprogram::program::Program;
use plterm::indicator::Indicator;
use plterm::term::Term;
use plterm::walk::TermRef;
use std::alloc::{AllocError, Global};

/// What some terms name.
#[derive(Drop)]
enum Names {
    /// Procedures.
    All(Vec<Indicator>),
    /// This is the first that names none.
    Lacks(Term),
}

/// What dynamic/1 of some terms comes to.
#[derive(Drop)]
pub enum Declaration {
    /// The procedures are declared by these updates.
    Updates(Vec<Update>),
    /// The error.
    Refused(Term),
}

/// What dynamic/1 of some terms comes to.
pub fn declared(
    alloc: Global,
    program: &Program,
    terms: &[TermRef<'_>],
) -> Result<Declaration, AllocError>
    ensures { IfOk result (IsDeclared program.now terms.now) }
{
    if any_open(terms) {
        let error = error::instantiation_error(alloc)?;
        return Ok(Declaration::Refused(error));
    }
    match naming(alloc, terms)? {
        Names::All(procedures) => declare_all(alloc, program, procedures),
        Names::Lacks(culprit) => {
            let error = error::type_error(alloc, "predicate_indicator", culprit)?;
            Ok(Declaration::Refused(error))
        }
    }
}

/// Whether one of some terms is not known yet.
fn any_open(terms: &[TermRef<'_>]) -> bool
    ensures { result ≡ list_any is_open terms.now }
{
    terms.iter().any(|t| is_open(t))
}

/// What some terms name.
fn naming(alloc: Global, terms: &[TermRef<'_>]) -> Result<Names, AllocError>
    ensures { IfOk result (IsNaming terms.now) }
{
    let mut found = Vec::new(alloc);
    for term in terms {
        match indicator_of(term)? {
            Some(p) => found.push(p)?,
            None => return Ok(Names::Lacks(term.copied(alloc)?)),
        }
    }
    Ok(Names::All(found))
}

/// Some procedures are declared, unless one of them is static.
fn declare_all(
    alloc: Global,
    program: &Program,
    procedures: Vec<Indicator>,
) -> Result<Declaration, AllocError>
    ensures { IfOk result (AreDeclared program.now procedures.items) }
{
    if let Some(p) = first_static(program, &procedures) {
        let error = error::static_error(alloc, p)?;
        return Ok(Declaration::Refused(error));
    }
    let updates = declarations(alloc, procedures)?;
    Ok(Declaration::Updates(updates))
}

/// The first procedure that is static.
fn first_static<'a>(program: &Program, procedures: &'a [Indicator]) -> Option<&'a Indicator>
    ensures { option_copied result ≡ find (is_static_procedure program.now) procedures.now }
{
    procedures.iter().find(|p| is_static(program, p))
}

/// The updates that declare some procedures.
fn declarations(alloc: Global, procedures: Vec<Indicator>) -> Result<Vec<Update>, AllocError>
    ensures { IfOk result (λ us. us.items ≡ map Declare procedures.items) }
{
    let mut updates = Vec::with_capacity(alloc, procedures.len())?;
    for p in procedures {
        updates.push(Update::Declare(p))?;
    }
    Ok(updates)
}
