//! Sequences and lists within terms.
ghost use Rattle.std.specs.Prelude.{◌≡◌, IfOk, option_map};
ghost use Rattle.plclause.specs.Lists.{only_argument, pair_of, items, behind, elements, members, is_list};

use plterm::walk::{Shape, TermRef};
use std::alloc::{AllocError, Global};

/// The argument of a compound of this name, if it has one alone.
pub fn argument_of<'a>(term: &TermRef<'a>, name: &str) -> Option<TermRef<'a>>
    ensures { result ≡ only_argument name.now term.now }
{
    match term.shape() {
        Shape::Compound(found, mut args) => {
            if found.as_str() != name {
                return None;
            }
            let first = args.next_term()?;
            if args.is_empty() { Some(first) } else { None }
        }
        Shape::Var(_) | Shape::Int(_) | Shape::Atom(_) => None,
    }
}

/// The two arguments of a compound of this name.
pub fn pair_of<'a>(term: &TermRef<'a>, name: &str) -> Option<(TermRef<'a>, TermRef<'a>)>
    ensures { result ≡ pair_of name.now term.now }
{
    match term.shape() {
        Shape::Compound(found, mut args) => {
            if found.as_str() != name {
                return None;
            }
            let left = args.next_term()?;
            let right = args.next_term()?;
            if args.is_empty() {
                Some((left, right))
            } else {
                None
            }
        }
        Shape::Var(_) | Shape::Int(_) | Shape::Atom(_) => None,
    }
}

/// Whether the term is built as a list is (6.3.5).
pub fn is_list(term: &TermRef<'_>) -> bool
    ensures { result ≡ is_list term.now }
{
    match term.shape() {
        Shape::Var(_) | Shape::Int(_) => false,
        Shape::Atom(name) => name.as_str() == "[]",
        Shape::Compound(_, _) => pair_of(term, ".").is_some(),
    }
}

/// What stands along the right operands of a name, and what stands behind the last.
pub(crate) fn items_of<'a>(
    alloc: Global,
    term: &TermRef<'a>,
    name: &str,
) -> Result<(Vec<TermRef<'a>>, TermRef<'a>), AllocError>
    ensures items { IfOk result (λ r. r.0.items ≡ items name.now term.now) }
    ensures behind { IfOk result (λ r. r.1 ≡ behind name.now term.now) }
{
    let mut found = Vec::new(alloc);
    let Some(mut rest) = term.alone().next_term() else {
        unreachable!()
    };
    'pairs: loop {
        match pair_of(&rest, name) {
            Some((left, right)) => {
                found.push(left)?;
                rest = right;
            }
            None => return Ok((found, rest)),
        }
    }
}

/// The elements of a list, if the term is one.
pub fn elements_of<'a>(
    alloc: Global,
    term: &TermRef<'a>,
) -> Result<Option<Vec<TermRef<'a>>>, AllocError>
    ensures { IfOk result (λ o. option_map (λ v. v.items) o ≡ elements term.now) }
{
    let (found, rest) = items_of(alloc, term, ".")?;
    match rest.shape() {
        Shape::Atom(name) => {
            if name.as_str() == "[]" {
                return Ok(Some(found));
            }
            return Ok(None);
        }
        Shape::Var(_) | Shape::Int(_) | Shape::Compound(_, _) => return Ok(None),
    }
}

/// The members of a sequence with commas between them.
pub fn members_of<'a>(alloc: Global, term: &TermRef<'a>) -> Result<Vec<TermRef<'a>>, AllocError>
    ensures { IfOk result (λ v. v.items ≡ members term.now) }
{
    let (mut found, rest) = items_of(alloc, term, ",")?;
    found.push(rest)?;
    Ok(found)
}
