//! What a directive does.
ghost use Rattle.std.specs.Prelude.{◌≡◌, Some, IfOk, option_map, option_copied, is_some, if◌then◌else◌};
ghost use Rattle.std.specs.List.{list_any};
ghost use Rattle.plnames.specs.Names.{is_fixed};
ghost use Rattle.plclause.specs.Lists.{each, elements, is_list};
ghost use Rattle.plclause.specs.Named.{name_of, number_to, indicators};
ghost use Rattle.plload.specs.Meaning.{goal_meaning, directive_meaning, is_directive_name, of_args, of_one, of_two, of_three, dynamic_meaning, passes_if, is_library, flag_meaning, operator_meaning, kind_in, names_of};
ghost use Rattle.plload.specs.Shown.{shown};

use crate::error::RefusalKind;
use crate::meaning::Meaning;
use plclause::convert::convert;
use plclause::lists::{argument_of, elements_of, is_list};
use plclause::named::{indicators_of, name_of, number_to};
use plnames::table::NameTable;
use plops::operator::Kind;
use plprogram::change::{flag_named, kind_named};
use plterm::indicator::Indicator;
use plterm::name::Name;
use plterm::walk::{Shape, TermRef, Terms};
use std::alloc::{AllocError, Global};

/// What a directive does (ISO/IEC 13211-1 7.4.2); one of a name that no directive has is a goal of main.
pub fn directive_of(
    alloc: Global,
    names: &NameTable,
    directive: &TermRef<'_>,
) -> Result<Meaning, AllocError>
    ensures { IfOk result (λ m. shown m ≡ directive_meaning directive.now) }
{
    match directive.shape() {
        Shape::Var(_) | Shape::Int(_) => return Ok(Meaning::Refused(RefusalKind::BadDirective)),
        Shape::Atom(name) => {
            if is_directive_name(name.as_str()) {
                return Ok(Meaning::Refused(RefusalKind::BadDirective));
            }
        }
        Shape::Compound(name, args) => {
            if let Some(meaning) = of_args(alloc, names, name.as_str(), args)? {
                return Ok(meaning);
            }
        }
    }
    goal_of(alloc, directive)
}

/// A goal of main, if it is callable and convertible.
pub fn goal_of(alloc: Global, goal: &TermRef<'_>) -> Result<Meaning, AllocError>
    ensures { IfOk result (λ m. shown m ≡ goal_meaning goal.now) }
{
    match goal.shape() {
        Shape::Var(_) | Shape::Int(_) => return Ok(Meaning::Refused(RefusalKind::BadDirective)),
        Shape::Atom(_) | Shape::Compound(_, _) => {}
    }
    match convert(alloc, goal)? {
        None => Ok(Meaning::Refused(RefusalKind::BadDirective)),
        Some(_) => Ok(Meaning::Runs(goal.copied(alloc)?.copy(alloc, 0)?)),
    }
}

/// Whether directives have this name.
fn is_directive_name(name: &str) -> bool
    ensures { result ≡ is_directive_name name.now }
{
    match name {
        "dynamic"
        | "discontiguous"
        | "multifile"
        | "op"
        | "set_prolog_flag"
        | "initialization"
        | "use_module" => true,
        _ => false,
    }
}

/// What a directive of this name and these arguments does, if it is one.
fn of_args(
    alloc: Global,
    names: &NameTable,
    name: &str,
    mut args: Terms<'_>,
) -> Result<Option<Meaning>, AllocError>
    ensures { IfOk result (λ o. option_map shown o ≡ of_args name.now args.entry) }
{
    let Some(a) = args.next_term() else {
        return Ok(None);
    };
    let Some(b) = args.next_term() else {
        return of_one(alloc, names, name, &a);
    };
    let Some(c) = args.next_term() else {
        return of_two(name, &a, &b);
    };
    if args.is_empty() {
        return of_three(alloc, name, &a, &b, &c);
    }
    Ok(None)
}

/// A directive of one argument.
fn of_one(
    alloc: Global,
    names: &NameTable,
    name: &str,
    a: &TermRef<'_>,
) -> Result<Option<Meaning>, AllocError>
    ensures { IfOk result (λ o. option_map shown o ≡ of_one name.now a.now) }
{
    match name {
        "initialization" => Ok(Some(goal_of(alloc, a)?)),
        "dynamic" => Ok(Some(dynamic_of(alloc, names, a)?)),
        "discontiguous" | "multifile" => {
            let named = indicators_of(alloc, a)?.is_some();
            Ok(Some(passes_if(named)))
        }
        "use_module" => Ok(Some(passes_if(is_library(a)))),
        "thread_local" => Ok(Some(Meaning::Refused(RefusalKind::BadDirective))),
        _ => Ok(None),
    }
}

/// A directive of two arguments.
fn of_two(name: &str, a: &TermRef<'_>, b: &TermRef<'_>) -> Result<Option<Meaning>, AllocError>
    ensures { IfOk result (λ o. option_map shown o ≡ of_two name.now a.now b.now) }
{
    match name {
        "set_prolog_flag" => Ok(Some(flag_of(name_of(a), name_of(b)))),
        "use_module" => Ok(Some(passes_if(is_library(a)))),
        "module" => Ok(Some(Meaning::Refused(RefusalKind::BadDirective))),
        _ => Ok(None),
    }
}

/// A directive of three arguments.
fn of_three(
    alloc: Global,
    name: &str,
    a: &TermRef<'_>,
    b: &TermRef<'_>,
    c: &TermRef<'_>,
) -> Result<Option<Meaning>, AllocError>
    ensures { IfOk result (λ o. option_map shown o ≡ of_three name.now a.now b.now c.now) }
{
    if name == "op" {
        let names = names_of(alloc, c)?;
        return Ok(Some(operator_of(number_to(1200, a), kind_in(name_of(b)), names)));
    }
    Ok(None)
}

/// No effect, or a bad directive.
fn passes_if(good: bool) -> Meaning
    ensures { shown result ≡ passes_if good }
{
    if good {
        Meaning::Passes
    } else {
        Meaning::Refused(RefusalKind::BadDirective)
    }
}

/// dynamic/1: its procedures are no control constructs or built-in predicates.
fn dynamic_of(alloc: Global, names: &NameTable, term: &TermRef<'_>) -> Result<Meaning, AllocError>
    ensures { IfOk result (λ m. shown m ≡ dynamic_meaning (indicators term.now)) }
{
    match indicators_of(alloc, term)? {
        None => Ok(Meaning::Refused(RefusalKind::BadDirective)),
        Some(indicators) => {
            if any_fixed(names, &indicators) {
                Ok(Meaning::Refused(RefusalKind::BadDirective))
            } else {
                Ok(Meaning::Declares(indicators))
            }
        }
    }
}

/// Whether one of the procedures is a control construct or a built-in predicate.
fn any_fixed(names: &NameTable, indicators: &[Indicator]) -> bool
    ensures { result ≡ list_any is_fixed indicators.now }
{
    indicators.iter().any(|p| names.is_fixed(p))
}

/// Whether the term is `library(Name)`.
fn is_library(term: &TermRef<'_>) -> bool
    ensures { result ≡ is_library term.now }
{
    argument_of(term, "library").is_some()
}

/// set_prolog_flag/2 (7.11).
fn flag_of(flag: Option<&Name>, value: Option<&Name>) -> Meaning
    ensures { shown result ≡ flag_meaning (option_copied flag.entry) (option_copied value.entry) }
{
    let Some(flag) = flag else {
        return Meaning::Refused(RefusalKind::BadDirective);
    };
    match flag_named(flag.as_str(), value) {
        Ok(flag) => Meaning::Sets(flag),
        Err(_) => Meaning::Refused(RefusalKind::BadDirective),
    }
}

/// The names of op/3: one, or a list of them.
fn names_of(alloc: Global, term: &TermRef<'_>) -> Result<Option<Vec<Name>>, AllocError>
    ensures { IfOk result (λ o. option_map (λ v. v.items) o ≡ names_of term.now) }
{
    if is_list(term) {
        let Some(terms) = elements_of(alloc, term)? else {
            return Ok(None);
        };
        return each_name(alloc, &terms);
    }
    let Some(name) = name_of(term) else {
        return Ok(None);
    };
    let mut names = Vec::new(alloc);
    names.push(name.copied()?)?;
    Ok(Some(names))
}

/// The name of each term, if each has one.
fn each_name(alloc: Global, terms: &[TermRef<'_>]) -> Result<Option<Vec<Name>>, AllocError>
    ensures { IfOk result (λ o. option_map (λ v. v.items) o ≡ each name_of terms.now) }
{
    let mut found = Vec::new(alloc);
    for term in terms {
        match name_of(term) {
            Some(name) => found.push(name.copied()?)?,
            None => return Ok(None),
        }
    }
    Ok(Some(found))
}

/// The kind of operator that a name says (6.3.4.1).
fn kind_in(name: Option<&Name>) -> Option<Kind>
    ensures { result ≡ kind_in (option_copied name.entry) }
{
    match name {
        None => None,
        Some(name) => kind_named(name.as_str()),
    }
}

/// op/3.
fn operator_of(priority: Option<u16>, kind: Option<Kind>, names: Option<Vec<Name>>) -> Meaning
    ensures { shown result ≡ operator_meaning priority kind (option_map (λ v. v.items) names) }
{
    match (priority, kind, names) {
        (Some(priority), Some(kind), Some(names)) => Meaning::Operates(priority, kind, names),
        _ => Meaning::Refused(RefusalKind::BadDirective),
    }
}
