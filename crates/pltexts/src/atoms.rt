//! Built-in predicates on atoms (ISO/IEC 13211-1 8.16).
ghost use Rattle.std.specs.Prelude.{◌≡◌, ℕ, pos, [], ◌∷◌, length, Ok, IfOk, map};
ghost use Rattle.std.specs.Str.{chars};
ghost use Rattle.plterm.specs.Reading.{IsName};
ghost use Rattle.plcells.specs.Store.{Store, value, IsValue, AreValues};
ghost use Rattle.plnumber.specs.Numbers.{number_of as number_in};
ghost use Rattle.plprogram.specs.declared.settings.Settings.{Settings};
ghost use Rattle.plread.specs.Texts.{char_tree};
ghost use Rattle.plbuiltin.specs.Solution.{unifies};
ghost use Rattle.plbuiltin.specs.Atoms.{on_atoms, atom_length, atom_number as atom_number_of, char_code as char_code_of, has_code as has_code_of, has_length, is_found, is_number as is_number_of, number_or_none as number_or_none_of, number_spelled as number_spelled_of, spell as spell_of};
ghost use Rattle.plbuiltin.specs.Texts.{atom_of, spelled as spelled_of, number_text as number_text_of, text_in as text_in_term};
ghost use Rattle.planswers.specs.Answers.{IsThere, meant};

use crate::pieces::{atom_concat, sub_atom};
use itoa::Buffer;
use planswers::answer::Answer;
use planswers::build::spelled;
use planswers::equation::is_term;
use planswers::error::{outside, unbound, wrong_type};
use planswers::text::{atom_of, character_of, text_in};
use plcells::cell::Cell;
use plcells::heap::Heap;
use plerror::error;
use plnames::kind::{Atoms, Spelling};
use plnumber::number::number_of;
use plorder::shape::{Shape, shape_of};
use plterm::name::Name;
use std::alloc::{AllocError, Global};

/// What a call of one of them comes to.
pub fn atoms_answer(
    alloc: Global,
    heap: &Heap,
    b: Atoms,
    args: &[Cell],
) -> Result<Answer, AllocError>
    requires args { AreValues heap.now args.now }
    ensures is { IfOk result (λ answer. (s : Settings) (n : ℕ) → meant heap.now s n answer ≡ on_atoms b (map (value heap.now) args.now) s) }
    ensures there { IfOk result (IsThere heap.now) }
{
    match (b, args) {
        (Atoms::Length, [text, length]) => atom_length(alloc, heap, *text, *length),
        (Atoms::Spelled(k), [text, list]) => spell(alloc, heap, k, *text, *list),
        (Atoms::CharacterCode, [c, code]) => char_code(alloc, heap, *c, *code),
        (Atoms::NumberSpelled(k), [number, list]) => number_spelled(alloc, heap, k, *number, list),
        (Atoms::Number, [text, number]) => atom_number(alloc, heap, *text, *number),
        (Atoms::Concatenation, _) => atom_concat(alloc, heap, args),
        (Atoms::Part, _) => sub_atom(alloc, heap, args),
        _ => Ok(Answer::Fails),
    }
}

/// atom_length/2 (8.16.1).
fn atom_length(alloc: Global, heap: &Heap, text: Cell, length: Cell) -> Result<Answer, AllocError>
    requires text { IsValue heap.now text }
    requires length { IsValue heap.now length }
    ensures is { IfOk result (λ answer. (s : Settings) (n : ℕ) → meant heap.now s n answer ≡ atom_length (value heap.now text ∷ value heap.now length ∷ []) s) }
    ensures there { IfOk result (IsThere heap.now) }
{
    match shape_of(heap, &text) {
        Shape::Variable(_) => unbound(alloc),
        Shape::Atom(name) => has_length(alloc, heap, heap.names().atom_name(name), length),
        _ => wrong_type(alloc, heap, "atom", text),
    }
}

/// Whether a value is the number of a name's characters.
fn has_length(alloc: Global, heap: &Heap, name: &Name, length: Cell) -> Result<Answer, AllocError>
    requires name { IsName name.now }
    requires length { IsValue heap.now length }
    ensures is { IfOk result (λ answer. (s : Settings) (n : ℕ) → meant heap.now s n answer ≡ has_length name.now (value heap.now length) s) }
    ensures there { IfOk result (IsThere heap.now) }
{
    match shape_of(heap, &length) {
        Shape::Atom(_) | Shape::Compound(_) => wrong_type(alloc, heap, "integer", length),
        Shape::Integer(number) if number < 0 => {
            outside(alloc, heap, "not_less_than_zero", length)
        }
        _ => Ok(Answer::Unifies(length, Cell::Int(characters(name)))),
    }
}

/// How many characters a name has.
fn characters(name: &Name) -> i32
    requires { IsName name.now }
    ensures { result ≡ pos (length (chars name.now)) }
{
    name.as_str().chars().count() as i32
}

/// atom_chars/2 and atom_codes/2 (8.16.4, 8.16.5).
fn spell(
    alloc: Global,
    heap: &Heap,
    k: Spelling,
    text: Cell,
    list: Cell,
) -> Result<Answer, AllocError>
    requires text { IsValue heap.now text }
    requires list { IsValue heap.now list }
    ensures is { IfOk result (λ answer. (s : Settings) (n : ℕ) → meant heap.now s n answer ≡ spell_of k (value heap.now text) (value heap.now list) s) }
    ensures there { IfOk result (IsThere heap.now) }
{
    match shape_of(heap, &text) {
        Shape::Variable(_) => match text_in(alloc, heap, k, list)? {
            Ok(spelled) => is_atom(alloc, text, &spelled),
            Err(error) => Ok(Answer::Raises(error)),
        },
        Shape::Integer(number) => is_number_spelled(alloc, k, list, number),
        Shape::Atom(name) => {
            let term = spelled(alloc, k, heap.names().atom_name(name).as_str())?;
            is_term(alloc, list, term)
        }
        Shape::Compound(_) => wrong_type(alloc, heap, "atomic", text),
    }
}

/// A value is unified with the list that spells an integer.
fn is_number_spelled(
    alloc: Global,
    k: Spelling,
    list: Cell,
    number: i64,
) -> Result<Answer, AllocError>
    ensures is { (h : Store) → IfOk result (λ answer. (s : Settings) (n : ℕ) → meant h s n answer ≡ unifies (value h list) (spelled_of k (number_text_of number)) s) }
    ensures there { (h : Store) → IsValue h list → IfOk result (IsThere h) }
{
    let mut buffer = Buffer::new();
    let term = spelled(alloc, k, buffer.format(number))?;
    is_term(alloc, list, term)
}

/// A value is unified with the atom of a text, which has at most 65,535 bytes.
fn is_atom(alloc: Global, v: Cell, text: &str) -> Result<Answer, AllocError>
    ensures is { (h : Store) → IfOk result (λ answer. (s : Settings) (n : ℕ) → meant h s n answer ≡ is_found (value h v) (atom_of text.now) s) }
    ensures there { (h : Store) → IsValue h v → IfOk result (IsThere h) }
{
    match atom_of(alloc, text)? {
        Ok(term) => is_term(alloc, v, term),
        Err(error) => Ok(Answer::Raises(error)),
    }
}

/// char_code/2 (8.16.6).
fn char_code(alloc: Global, heap: &Heap, c: Cell, code: Cell) -> Result<Answer, AllocError>
    requires character { IsValue heap.now c }
    requires code { IsValue heap.now code }
    ensures is { IfOk result (λ answer. (s : Settings) (n : ℕ) → meant heap.now s n answer ≡ char_code_of (value heap.now c) (value heap.now code) s) }
    ensures there { IfOk result (IsThere heap.now) }
{
    if let Shape::Variable(_) = shape_of(heap, &c) {
        return match character_of(alloc, heap, Spelling::Codes, code)? {
            Ok(found) => is_character(alloc, c, found),
            Err(error) => Ok(Answer::Raises(error)),
        };
    }
    match character_of(alloc, heap, Spelling::Characters, c)? {
        Ok(found) => has_code(alloc, heap, found, &code),
        Err(error) => Ok(Answer::Raises(error)),
    }
}

/// A value is unified with the atom of a character.
fn is_character(alloc: Global, v: Cell, c: char) -> Result<Answer, AllocError>
    ensures is { (h : Store) → IfOk result (λ answer. (s : Settings) (n : ℕ) → meant h s n answer ≡ unifies (value h v) (char_tree c) s) }
    ensures there { (h : Store) → IsValue h v → IfOk result (IsThere h) }
{
    let mut bytes = [0; 4];
    let term = error::atom(alloc, c.encode_utf8(&mut bytes))?;
    is_term(alloc, v, term)
}

/// Whether a value is the code of a character, or can be.
fn has_code(alloc: Global, heap: &Heap, c: char, code: &Cell) -> Result<Answer, AllocError>
    requires { IsValue heap.now code.now }
    ensures is { IfOk result (λ answer. (s : Settings) (n : ℕ) → meant heap.now s n answer ≡ has_code_of (Ok c) (value heap.now code.now) s) }
    ensures there { IfOk result (IsThere heap.now) }
{
    let answer = Answer::Unifies(*code, Cell::Int(u32::from(c) as i32));
    if let Shape::Variable(_) = shape_of(heap, code) {
        return Ok(answer);
    }
    match character_of(alloc, heap, Spelling::Codes, *code)? {
        Ok(_) => Ok(answer),
        Err(error) => Ok(Answer::Raises(error)),
    }
}

/// number_chars/2 and number_codes/2 (8.16.7, 8.16.8).
fn number_spelled(
    alloc: Global,
    heap: &Heap,
    k: Spelling,
    number: Cell,
    list: &Cell,
) -> Result<Answer, AllocError>
    requires number { IsValue heap.now number }
    requires list { IsValue heap.now list.now }
    ensures is { IfOk result (λ answer. (s : Settings) (n : ℕ) → meant heap.now s n answer ≡ number_spelled_of k (value heap.now number) (value heap.now list.now) (text_in_term k (value heap.now list.now)) s) }
    ensures there { IfOk result (IsThere heap.now) }
{
    let shape = shape_of(heap, &number);
    if let Shape::Atom(_) | Shape::Compound(_) = shape {
        return wrong_type(alloc, heap, "number", number);
    }
    match (text_in(alloc, heap, k, *list)?, shape) {
        (Ok(text), _) => is_number(alloc, number, text.as_str()),
        (Err(_), Shape::Integer(i)) => is_number_spelled(alloc, k, *list, i),
        (Err(error), _) => Ok(Answer::Raises(error)),
    }
}

/// A value is unified with the integer that a text is.
fn is_number(alloc: Global, v: Cell, text: &str) -> Result<Answer, AllocError>
    ensures is { (h : Store) → IfOk result (λ answer. (s : Settings) (n : ℕ) → meant h s n answer ≡ is_number_of (value h v) (number_in text.now) s) }
    ensures there { (h : Store) → IsValue h v → IfOk result (IsThere h) }
{
    match number_of(text.as_bytes()) {
        Some(i) => Ok(Answer::Equals(v, i)),
        None => Ok(Answer::Raises(error::syntax_error(alloc, "illegal_number")?)),
    }
}

/// atom_number/2.
fn atom_number(alloc: Global, heap: &Heap, text: Cell, number: Cell) -> Result<Answer, AllocError>
    requires text { IsValue heap.now text }
    requires number { IsValue heap.now number }
    ensures is { IfOk result (λ answer. (s : Settings) (n : ℕ) → meant heap.now s n answer ≡ atom_number_of (value heap.now text) (value heap.now number) s) }
    ensures there { IfOk result (IsThere heap.now) }
{
    match (shape_of(heap, &text), shape_of(heap, &number)) {
        (Shape::Variable(_), Shape::Variable(_)) => unbound(alloc),
        (Shape::Variable(_), Shape::Integer(i)) => {
            let mut buffer = Buffer::new();
            let term = error::atom(alloc, buffer.format(i))?;
            is_term(alloc, text, term)
        }
        (Shape::Atom(name), Shape::Variable(_) | Shape::Integer(_)) => {
            let text = heap.names().atom_name(name).as_str();
            Ok(number_or_none(number, text))
        }
        (Shape::Variable(_) | Shape::Atom(_), _) => wrong_type(alloc, heap, "integer", number),
        _ => wrong_type(alloc, heap, "atom", text),
    }
}

/// A value is unified with the integer that a text is, if it is one.
fn number_or_none(v: Cell, text: &str) -> Answer
    ensures is { (h : Store) (s : Settings) (n : ℕ) → meant h s n result ≡ number_or_none_of (value h v) (number_in text.now) s }
    ensures there { (h : Store) → IsValue h v → IsThere h result }
{
    match number_of(text.as_bytes()) {
        Some(i) => Answer::Equals(v, i),
        None => Answer::Fails,
    }
}
