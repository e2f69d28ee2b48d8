//! Built-in predicates on the parts of texts (ISO/IEC 13211-1 8.16.2, 8.16.3).
ghost use Rattle.std.specs.Prelude.{◌≡◌, ◌<◌, ℕ, [], ◌∷◌, length, IfOk, map};
ghost use Rattle.std.specs.Str.{chars};
ghost use Rattle.platoms.specs.Names.{atom_at};
ghost use Rattle.plterm.specs.Tree.{atom};
ghost use Rattle.plcells.specs.Store.{value, IsValue, AreValues};
ghost use Rattle.plprogram.specs.declared.settings.Settings.{Settings};
ghost use Rattle.plbuiltin.specs.Errors.{atom_error as atom_error_of, first_error};
ghost use Rattle.plbuiltin.specs.Pieces.{as_text, atom_concat as atom_concat_of, atomic_error, concatenated, count_error, divided, lacks, parts, sub_atom as sub_atom_of, text_of as text_in, whole};
ghost use Rattle.plbuiltin.specs.Solution.{Gives};
ghost use Rattle.plbuiltin.specs.Texts.{atom_of as atom_of_text};
ghost use Rattle.plgenerator.specs.Answers.{sought_terms};
ghost use Rattle.planswers.specs.Answers.{IsThere, meant};

use itoa::Buffer;
use planswers::answer::Answer;
use planswers::equation::{are_terms, is_term};
use planswers::error::{atom_error, outside_error, type_error, unbound, wrong_type};
use planswers::list::is_variable;
use planswers::text::atom_of;
use plcells::cell::Cell;
use plcells::heap::Heap;
use plerror::error::{atom, instantiation_error};
use plgenerator::argument::text_of;
use plgenerator::equation::{part_equation, split_equation};
use plgenerator::part::all_parts;
use plgenerator::split::all_splits;
use plgenerator::turn::Remaining;
use plgenerator::wanted::Sought;
use plorder::shape::{Shape, shape_of};
use plterm::term::Term;
use std::alloc::{AllocError, Global};
use std::string::String;

/// sub_atom/5 (8.16.3).
pub(crate) fn sub_atom(alloc: Global, heap: &Heap, args: &[Cell]) -> Result<Answer, AllocError>
    requires { AreValues heap.now args.now }
    ensures is { IfOk result (λ answer. (s : Settings) (n : ℕ) → meant heap.now s n answer ≡ sub_atom_of (map (value heap.now) args.now) s) }
    ensures there { IfOk result (IsThere heap.now) }
{
    let [text, before, length, after, part] = args else {
        return Ok(Answer::Fails);
    };
    let sought = Sought {
        before: *before,
        length: *length,
        after: *after,
        text: *part,
    };
    parts_in(alloc, heap, *text, sought)
}

/// The parts of a value that is to be an atom.
fn parts_in(alloc: Global, heap: &Heap, v: Cell, sought: Sought) -> Result<Answer, AllocError>
    requires value { IsValue heap.now v }
    requires before { IsValue heap.now sought.before }
    requires length { IsValue heap.now sought.length }
    requires after { IsValue heap.now sought.after }
    requires text { IsValue heap.now sought.text }
    ensures is { IfOk result (λ answer. (s : Settings) (n : ℕ) → meant heap.now s n answer ≡ sub_atom_of (value heap.now v ∷ sought_terms heap.now sought) s) }
    ensures there { IfOk result (IsThere heap.now) }
{
    match shape_of(heap, &v) {
        Shape::Variable(_) => unbound(alloc),
        Shape::Atom(name) => match part_error(alloc, heap, &sought)? {
            Some(error) => Ok(Answer::Raises(error)),
            None => parts(alloc, heap, v, name, sought),
        },
        _ => wrong_type(alloc, heap, "atom", v),
    }
}

/// The first error of the arguments behind the atom.
fn part_error(alloc: Global, heap: &Heap, sought: &Sought) -> Result<Option<Term>, AllocError>
    requires before { IsValue heap.now sought.now.before }
    requires length { IsValue heap.now sought.now.length }
    requires after { IsValue heap.now sought.now.after }
    requires text { IsValue heap.now sought.now.text }
    ensures { IfOk result (λ error. error ≡ first_error (atom_error_of (value heap.now sought.now.text) ∷ count_error (value heap.now sought.now.before) ∷ count_error (value heap.now sought.now.length) ∷ count_error (value heap.now sought.now.after) ∷ [])) }
{
    if let Some(error) = atom_error(alloc, heap, sought.text)? {
        return Ok(Some(error));
    }
    if let Some(error) = count_error(alloc, heap, sought.before)? {
        return Ok(Some(error));
    }
    if let Some(error) = count_error(alloc, heap, sought.length)? {
        return Ok(Some(error));
    }
    count_error(alloc, heap, sought.after)
}

/// The error of a value that is to be a variable or a number of characters.
fn count_error(alloc: Global, heap: &Heap, v: Cell) -> Result<Option<Term>, AllocError>
    requires { IsValue heap.now v }
    ensures { IfOk result (λ error. error ≡ count_error (value heap.now v)) }
{
    match shape_of(heap, &v) {
        Shape::Variable(_) => Ok(None),
        Shape::Integer(count) if count < 0 => {
            Ok(Some(outside_error(alloc, heap, "not_less_than_zero", v)?))
        }
        Shape::Integer(_) => Ok(None),
        _ => Ok(Some(type_error(alloc, heap, "integer", v)?)),
    }
}

/// The parts of an atom by its name: of the empty one there is one.
fn parts(
    alloc: Global,
    heap: &Heap,
    whole: Cell,
    name: u32,
    sought: Sought,
) -> Result<Answer, AllocError>
    requires whole { IsValue heap.now whole }
    requires name { name < length heap.now.names.atoms }
    requires named { value heap.now whole ≡ atom (atom_at heap.now.names name) }
    requires before { IsValue heap.now sought.before }
    requires length { IsValue heap.now sought.length }
    requires after { IsValue heap.now sought.after }
    requires text { IsValue heap.now sought.text }
    ensures is { IfOk result (λ answer. (s : Settings) (n : ℕ) → meant heap.now s n answer ≡ Gives (parts (chars (atom_at heap.now.names name)) (sought_terms heap.now sought)) [] s) }
    ensures there { IfOk result (IsThere heap.now) }
{
    let text = heap.names().atom_name(name).as_str();
    let part = all_parts(text);
    if text.is_empty() {
        let equation = part_equation(alloc, sought, text, part)?;
        return Ok(Answer::Solves(equation));
    }
    let values = vec![in alloc;
        whole,
        sought.before,
        sought.length,
        sought.after,
        sought.text,
    ]?;
    Ok(Answer::Several(values, Remaining::Part(part)))
}

/// atom_concat/3 (8.16.2).
pub(crate) fn atom_concat(alloc: Global, heap: &Heap, args: &[Cell]) -> Result<Answer, AllocError>
    requires { AreValues heap.now args.now }
    ensures is { IfOk result (λ answer. (s : Settings) (n : ℕ) → meant heap.now s n answer ≡ atom_concat_of (map (value heap.now) args.now) s) }
    ensures there { IfOk result (IsThere heap.now) }
{
    let [front, back, whole] = args else {
        return Ok(Answer::Fails);
    };
    match concatenation_error(alloc, heap, *front, *back, *whole)? {
        Some(error) => Ok(Answer::Raises(error)),
        None => concatenated(alloc, heap, front, back, whole),
    }
}

/// The first error of its arguments.
fn concatenation_error(
    alloc: Global,
    heap: &Heap,
    front: Cell,
    back: Cell,
    whole: Cell,
) -> Result<Option<Term>, AllocError>
    requires front { IsValue heap.now front }
    requires back { IsValue heap.now back }
    requires whole { IsValue heap.now whole }
    ensures { IfOk result (λ error. error ≡ first_error (lacks (value heap.now front) (value heap.now back) (value heap.now whole) ∷ atomic_error (value heap.now front) ∷ atomic_error (value heap.now back) ∷ atomic_error (value heap.now whole) ∷ [])) }
{
    if is_variable(heap, &whole) && (is_variable(heap, &front) || is_variable(heap, &back)) {
        return Ok(Some(instantiation_error(alloc)?));
    }
    if let Some(error) = atomic_error(alloc, heap, front)? {
        return Ok(Some(error));
    }
    if let Some(error) = atomic_error(alloc, heap, back)? {
        return Ok(Some(error));
    }
    atomic_error(alloc, heap, whole)
}

/// The error of a value that is to be a variable, an atom or an integer.
fn atomic_error(alloc: Global, heap: &Heap, v: Cell) -> Result<Option<Term>, AllocError>
    requires { IsValue heap.now v }
    ensures { IfOk result (λ error. error ≡ atomic_error (value heap.now v)) }
{
    match shape_of(heap, &v) {
        Shape::Compound(_) => Ok(Some(type_error(alloc, heap, "atomic", v)?)),
        _ => Ok(None),
    }
}

/// Two texts are joined where both are known, and else the whole is divided.
fn concatenated(
    alloc: Global,
    heap: &Heap,
    front: &Cell,
    back: &Cell,
    whole: &Cell,
) -> Result<Answer, AllocError>
    requires front { IsValue heap.now front.now }
    requires back { IsValue heap.now back.now }
    requires whole { IsValue heap.now whole.now }
    ensures is { IfOk result (λ answer. (s : Settings) (n : ℕ) → meant heap.now s n answer ≡ concatenated (text_in (value heap.now front.now)) (text_in (value heap.now back.now)) (value heap.now front.now) (value heap.now back.now) (value heap.now whole.now) s) }
    ensures there { IfOk result (IsThere heap.now) }
{
    match (text_of(alloc, heap, *front)?, text_of(alloc, heap, *back)?) {
        (Some(first), Some(second)) => {
            let mut text = String::from_str(alloc, first.as_str())?;
            text.push_str(second.as_str())?;
            is_whole(alloc, heap, *whole, &text)
        }
        _ => divided(alloc, heap, front, back, whole),
    }
}

/// A value is unified with the atom of a text; an integer stands for its own text.
fn is_whole(alloc: Global, heap: &Heap, v: Cell, text: &str) -> Result<Answer, AllocError>
    requires { IsValue heap.now v }
    ensures is { IfOk result (λ answer. (s : Settings) (n : ℕ) → meant heap.now s n answer ≡ whole (atom_of_text text.now) (value heap.now v) s) }
    ensures there { IfOk result (IsThere heap.now) }
{
    let term = match atom_of(alloc, text)? {
        Ok(term) => term,
        Err(error) => return Ok(Answer::Raises(error)),
    };
    match shape_of(heap, &v) {
        Shape::Integer(i) => {
            let mut buffer = Buffer::new();
            Ok(are_terms(alloc, atom(alloc, buffer.format(i))?, term))
        }
        _ => is_term(alloc, v, term),
    }
}

/// The ways to divide the text of a value: of the empty one there is one.
fn divided(
    alloc: Global,
    heap: &Heap,
    front: &Cell,
    back: &Cell,
    whole: &Cell,
) -> Result<Answer, AllocError>
    requires front { IsValue heap.now front.now }
    requires back { IsValue heap.now back.now }
    requires whole { IsValue heap.now whole.now }
    ensures is { IfOk result (λ answer. (s : Settings) (n : ℕ) → meant heap.now s n answer ≡ divided (text_in (value heap.now whole.now)) (as_text (value heap.now front.now) ∷ as_text (value heap.now back.now) ∷ []) s) }
    ensures there { IfOk result (IsThere heap.now) }
{
    let Some(name) = text_of(alloc, heap, *whole)? else {
        return Ok(Answer::Fails);
    };
    let text = name.as_str();
    let split = all_splits(text);
    if text.is_empty() {
        let equation = split_equation(alloc, heap, (*front, *back), text, split)?;
        return Ok(Answer::Solves(equation));
    }
    let values = vec![in alloc; *front, *back, *whole]?;
    Ok(Answer::Several(values, Remaining::Split(split)))
}
