//! Texts: atomic terms by their characters, and lists of characters and of codes (ISO/IEC 13211-1 6.3.7, 7.1.4).
ghost use Rattle.std.specs.Prelude.{◌≡◌, ◌≤◌, ℕ, [], ◌∷◌, Ok, Err, length, IfOk, IfErr, IfSome, IfNone, string_bytes};
ghost use Rattle.std.specs.Str.{chars};
ghost use Rattle.plterm.specs.Tree.{int};
ghost use Rattle.plcells.specs.Store.{value, IsValue};
ghost use Rattle.plnames.specs.declared.kind.Spelling.TheVariants.{Codes};
ghost use Rattle.plnames.specs.declared.kind.Spelling.{Spelling};
ghost use Rattle.plbuiltin.specs.Lists.{elements_of};
ghost use Rattle.plbuiltin.specs.Texts.{atom_of, character_of as character_in, characters_of, text_in as text_in_term};

use crate::error::type_error;
use crate::list::{Tail, cell_of, elements_of, is_partial, tail_of};
use plcells::cell::Cell;
use plcells::heap::Heap;
use plerror::error::{atom, instantiation_error, representation_error};
use plnames::kind::Spelling;
use plorder::shape::{Shape, shape_of};
use plterm::term::{NAME_LENGTH, Term};
use std::alloc::{AllocError, Global};
use std::string::String;

/// The text that the list of a value spells, or the error of what is none.
pub fn text_in(
    alloc: Global,
    heap: &Heap,
    k: Spelling,
    v: Cell,
) -> Result<Result<String, Term>, AllocError>
    requires { IsValue heap.now v }
    ensures text { IfOk result (λ r. IfOk r (λ text. text_in_term k (value heap.now v) ≡ Ok (string_bytes text))) }
    ensures error { IfOk result (λ r. IfErr r (λ e. text_in_term k (value heap.now v) ≡ Err e)) }
{
    let mut text = String::new(alloc);
    let mut rest = v;
    while let Some((first, tail)) = cell_of(heap, &rest) {
        match character_of(alloc, heap, k, first)? {
            Ok(c) => text.push(c)?,
            Err(error) => return Ok(Err(text_error(alloc, heap, v, error)?)),
        }
        rest = tail;
    }
    match tail_of(heap, &rest) {
        Tail::Empty => Ok(Ok(text)),
        Tail::Unbound => Ok(Err(instantiation_error(alloc)?)),
        Tail::Other => Ok(Err(type_error(alloc, heap, "list", v)?)),
    }
}

/// The error of a value whose elements spell no text, the first of them with an error of its own: it counts where no end and no element is a variable, and the value is a list.
fn text_error(alloc: Global, heap: &Heap, v: Cell, error: Term) -> Result<Term, AllocError>
    requires { IsValue heap.now v }
    ensures { IfOk result (λ t. (k : Spelling) → characters_of k (elements_of (value heap.now v)).items ≡ Err error → text_in_term k (value heap.now v) ≡ Err t) }
{
    let list = elements_of(alloc, heap, v)?;
    if is_partial(heap, &list) {
        return Ok(instantiation_error(alloc)?);
    }
    let Tail::Other = list.tail else {
        return Ok(error);
    };
    Ok(type_error(alloc, heap, "list", v)?)
}

/// The character that a value stands for as an element of such a list, or its error.
pub fn character_of(
    alloc: Global,
    heap: &Heap,
    k: Spelling,
    v: Cell,
) -> Result<Result<char, Term>, AllocError>
    requires { IsValue heap.now v }
    ensures { IfOk result (λ c. c ≡ character_in k (value heap.now v)) }
{
    match (k, shape_of(heap, &v)) {
        (_, Shape::Variable(_)) => Ok(Err(instantiation_error(alloc)?)),
        (Spelling::Characters, Shape::Atom(name)) => {
            match one_character(heap.names().atom_name(name).as_str()) {
                Some(c) => Ok(Ok(c)),
                None => Ok(Err(type_error(alloc, heap, "character", v)?)),
            }
        }
        (Spelling::Characters, _) => Ok(Err(type_error(alloc, heap, "character", v)?)),
        (Spelling::Codes, Shape::Integer(code)) => of_code(alloc, code),
        (Spelling::Codes, _) => Ok(Err(type_error(alloc, heap, "integer", v)?)),
    }
}

/// The character of a text that is one character.
fn one_character(text: &str) -> Option<char>
    ensures some { IfSome result (λ c. chars text.now ≡ c ∷ []) }
    ensures none { IfNone result ((c : ℕ) → chars text.now ≡ c ∷ [] → ⊥) }
{
    let mut characters = text.chars();
    let first = characters.next()?;
    match characters.next() {
        None => Some(first),
        Some(_) => None,
    }
}

/// The character of a code (7.1.2.2), or its error.
fn of_code(alloc: Global, code: i64) -> Result<Result<char, Term>, AllocError>
    ensures { IfOk result (λ c. c ≡ character_in Codes (int code)) }
{
    match u32::try_from(code).ok().and_then(char::from_u32) {
        Some(c) => Ok(Ok(c)),
        None => Ok(Err(representation_error(alloc, "character_code")?)),
    }
}

/// The atom of a text, or the error of one that is longer than 65,535 bytes.
pub fn atom_of(alloc: Global, text: &str) -> Result<Result<Term, Term>, AllocError>
    ensures { IfOk result (λ found. found ≡ atom_of text.now) }
{
    if text.len() > NAME_LENGTH {
        return Ok(Err(representation_error(alloc, "max_atom_length")?));
    }
    Ok(Ok(atom(alloc, text)?))
}
