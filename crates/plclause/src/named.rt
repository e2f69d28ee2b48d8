//! Terms that name procedures: `Name/Arity`, alone, in a sequence or in a list.
ghost use Rattle.std.specs.Prelude.{◌≡◌, Some, IfOk, codes, option_map, option_copied, if◌then◌else◌};
ghost use Rattle.plclause.specs.Lists.{each, elements, is_atom, members, is_list};
ghost use Rattle.plclause.specs.Named.{name_of, named_terms, number_to, indicators, indicator_of, is_open, is_var};

use crate::lists::{elements_of, is_list, items_of, members_of, pair_of};
use plterm::indicator::Indicator;
use plterm::name::Name;
use plterm::walk::{Shape, TermRef};
use std::alloc::{AllocError, Global};

/// The indicators that a term names: one, a sequence of them, or a list.
pub fn indicators_of(
    alloc: Global,
    term: &TermRef<'_>,
) -> Result<Option<Vec<Indicator>>, AllocError>
    ensures { IfOk result (λ o. option_map (λ v. v.items) o ≡ indicators term.now) }
{
    let Some(terms) = named_in(alloc, term)? else {
        return Ok(None);
    };
    each_indicator(alloc, &terms)
}

/// The members of a sequence or the elements of a list.
fn named_in<'a>(alloc: Global, term: &TermRef<'a>) -> Result<Option<Vec<TermRef<'a>>>, AllocError>
    ensures { IfOk result (λ o. option_map (λ v. v.items) o ≡ (if is_list term.now then elements term.now else Some (members term.now))) }
{
    if is_list(term) {
        return elements_of(alloc, term);
    }
    let terms = members_of(alloc, term)?;
    Ok(Some(terms))
}

/// The indicator of each term, if each has one.
fn each_indicator(
    alloc: Global,
    terms: &[TermRef<'_>],
) -> Result<Option<Vec<Indicator>>, AllocError>
    ensures { IfOk result (λ o. option_map (λ v. v.items) o ≡ each indicator_of terms.now) }
{
    let mut found = Vec::new(alloc);
    for term in terms {
        match indicator_of(term)? {
            Some(indicator) => found.push(indicator)?,
            None => return Ok(None),
        }
    }
    Ok(Some(found))
}

/// The indicator `Name/Arity`.
pub fn indicator_of(term: &TermRef<'_>) -> Result<Option<Indicator>, AllocError>
    ensures { IfOk result (λ o. o ≡ indicator_of term.now) }
{
    let Some((name, arity)) = pair_of(term, "/") else {
        return Ok(None);
    };
    let Some(name) = name_of(&name) else {
        return Ok(None);
    };
    let Some(arity) = number_to(1024, &arity) else {
        return Ok(None);
    };
    let name = name.copied()?;
    Ok(Some(Indicator { name, arity }))
}

/// The name that an atom is.
pub fn name_of<'a>(term: &TermRef<'a>) -> Option<&'a Name>
    ensures { option_copied result ≡ name_of term.now }
{
    match term.shape() {
        Shape::Atom(name) => Some(name),
        Shape::Var(_) | Shape::Int(_) | Shape::Compound(_, _) => None,
    }
}

/// The number that a term is, if it is from 0 to a greatest one.
pub fn number_to(most: u16, term: &TermRef<'_>) -> Option<u16>
    ensures { result ≡ number_to most term.now }
{
    match term.shape() {
        Shape::Int(value) => {
            if value >= 0 && value <= i64::from(most) {
                Some(value as u16)
            } else {
                None
            }
        }
        Shape::Var(_) | Shape::Atom(_) | Shape::Compound(_, _) => None,
    }
}

/// The terms that are to be indicators: the elements of a list, with what stands in place of its end, or the members of a sequence.
pub fn named_terms<'a>(alloc: Global, term: &TermRef<'a>) -> Result<Vec<TermRef<'a>>, AllocError>
    ensures { IfOk result (λ v. v.items ≡ named_terms term.now) }
{
    if !is_list(term) {
        return members_of(alloc, term);
    }
    let (mut found, rest) = items_of(alloc, term, ".")?;
    if !is_nil(&rest) {
        found.push(rest)?;
    }
    Ok(found)
}

/// Whether the term is the empty list.
fn is_nil(term: &TermRef<'_>) -> bool
    ensures { result ≡ is_atom (codes "[]") term.now }
{
    match term.shape() {
        Shape::Atom(name) => name.as_str() == "[]",
        Shape::Var(_) | Shape::Int(_) | Shape::Compound(_, _) => false,
    }
}

/// Whether the term is a variable.
fn is_var(term: &TermRef<'_>) -> bool
    ensures { result ≡ is_var term.now }
{
    match term.shape() {
        Shape::Var(_) => true,
        Shape::Int(_) | Shape::Atom(_) | Shape::Compound(_, _) => false,
    }
}

/// Whether a term that is to be an indicator is not known yet: it is a variable, or has one in place of its name or arity.
pub fn is_open(term: &TermRef<'_>) -> bool
    ensures { result ≡ is_open term.now }
{
    if is_var(term) {
        return true;
    }
    match pair_of(term, "/") {
        Some((name, arity)) => is_var(&name) || is_var(&arity),
        None => false,
    }
}
