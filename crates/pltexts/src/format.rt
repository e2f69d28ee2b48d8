//! Formatted output: format/1 and format/2.
ghost use Rattle.std.specs.Prelude.{◌≡◌, ℕ, false, codes, map, count_by, IfOk};
ghost use Rattle.std.specs.List.{list_any};
ghost use Rattle.plcells.specs.Store.{value, IsValue, AreValues};
ghost use Rattle.plbuiltin.specs.Format.{format_to, control_text, directive as directive_of, pieces as pieces_in, pieces_of as pieces_of_text, listed_text, arguments_of, argument_text as argument_text_of, format_fault, formatted as formatted_of, is_amiss, takes_one};
ghost use Rattle.plerror.specs.Errors.{domain_error as domain_error_of};
ghost use Rattle.plbuiltin.specs.Texts.{text_in as text_in_term};
ghost use Rattle.plnames.specs.declared.kind.Spelling.TheVariants.{Characters, Codes};
ghost use Rattle.planswers.specs.Answers.{IsThere, meant};
ghost use Rattle.pltexts.specs.Format.{directive_as, piece_as, pieces_as, text_as, given, IsGiven};

use itoa::Buffer;
use planswers::answer::Answer;
use planswers::error::type_error;
use planswers::list::{Tail, elements_of, is_partial};
use planswers::text::text_in;
use plcells::cell::Cell;
use plcells::heap::Heap;
use plerror::error::{self, domain_error};
use plnames::kind::Spelling;
use plorder::shape::{Shape, shape_of};
use plprogram::settings::Settings;
use plterm::term::Term;
use plwrite::style::Style;
use plwrite::write::write_term;
use std::alloc::{AllocError, Global};

/// What becomes of an argument.
#[derive(Clone, Copy)]
pub(crate) enum Directive {
    /// It is written in a style.
    Written(Style),
    /// It is an atom, whose name is written.
    Name,
    /// It is an integer, which is written.
    Number,
}

/// What a format's text is made of.
#[derive(Clone, Copy)]
pub(crate) enum Piece {
    /// A byte that is written.
    Byte(u8),
    /// A directive that takes an argument.
    Takes(Directive),
    /// What is no directive.
    Amiss,
}

/// A format and its arguments, of which format/1 has none.
#[derive(Drop)]
struct Call {
    control: Cell,
    pieces: Vec<Piece>,
    arguments: Option<Cell>,
    values: Vec<Cell>,
}

/// format/1 and format/2: nothing is written where it raises.
pub(crate) fn format(
    alloc: Global,
    heap: &Heap,
    settings: &Settings,
    control: Cell,
    arguments: Option<Cell>,
) -> Result<Answer, AllocError>
    requires control { IsValue heap.now control }
    requires arguments { IsGiven heap.now arguments }
    ensures is { IfOk result (λ answer. (n : ℕ) → meant heap.now settings.now n answer ≡ format_to (value heap.now control) (given heap.now arguments) settings.now) }
    ensures there { IfOk result (IsThere heap.now) }
{
    let pieces = match control_pieces(alloc, heap, &control)? {
        Ok(pieces) => pieces,
        Err(error) => return Ok(Answer::Raises(error)),
    };
    let values = values_of(alloc, heap, &arguments)?;
    let call = Call {
        control,
        pieces,
        arguments,
        values,
    };
    if let Some(error) = call_error(alloc, heap, &call)? {
        return Ok(Answer::Raises(error));
    }
    match formatted(alloc, heap, settings, &call)? {
        Ok(text) => Ok(Answer::Writes(text)),
        Err(error) => Ok(Answer::Raises(error)),
    }
}

/// The pieces of the format that a value is: an atom, a list of codes or a list of characters.
fn control_pieces(
    alloc: Global,
    heap: &Heap,
    v: &Cell,
) -> Result<Result<Vec<Piece>, Term>, AllocError>
    requires { IsValue heap.now v.now }
    ensures { IfOk result (λ r. pieces_as r ≡ pieces_of_text (control_text (value heap.now v.now))) }
{
    match shape_of(heap, v) {
        Shape::Atom(name) => {
            let text = heap.names().atom_name(name).as_str();
            let pieces = pieces_of(alloc, if text == "[]" { b"" } else { text.as_bytes() })?;
            Ok(Ok(pieces))
        }
        _ => listed_pieces(alloc, heap, v),
    }
}

/// The pieces of the format that a list spells.
fn listed_pieces(
    alloc: Global,
    heap: &Heap,
    v: &Cell,
) -> Result<Result<Vec<Piece>, Term>, AllocError>
    requires { IsValue heap.now v.now }
    ensures { IfOk result (λ r. pieces_as r ≡ pieces_of_text (listed_text (text_in_term Codes (value heap.now v.now)) (text_in_term Characters (value heap.now v.now)) (value heap.now v.now))) }
{
    if let Ok(text) = text_in(alloc, heap, Spelling::Codes, *v)? {
        return Ok(Ok(pieces_of(alloc, text.as_bytes())?));
    }
    if let Ok(text) = text_in(alloc, heap, Spelling::Characters, *v)? {
        return Ok(Ok(pieces_of(alloc, text.as_bytes())?));
    }
    if is_partial(heap, &elements_of(alloc, heap, *v)?) {
        return Ok(Err(error::instantiation_error(alloc)?));
    }
    Ok(Err(type_error(alloc, heap, "atom", *v)?))
}

/// The pieces of a text.
fn pieces_of(alloc: Global, text: &[u8]) -> Result<Vec<Piece>, AllocError>
    ensures { IfOk result (λ ps. map piece_as ps.items ≡ pieces_in false text.now) }
{
    let mut pieces = Vec::new(alloc);
    let mut escaped = false;
    for c in text {
        if escaped {
            pieces.push(behind_tilde(*c))?;
            escaped = false;
        } else if *c == b'~' {
            escaped = true;
        } else {
            pieces.push(Piece::Byte(*c))?;
        }
    }
    if escaped {
        pieces.push(Piece::Amiss)?;
    }
    Ok(pieces)
}

/// What a byte behind a tilde says.
fn behind_tilde(c: u8) -> Piece
    ensures { piece_as result ≡ directive_of c }
{
    match c {
        b'w' => Piece::Takes(Directive::Written(Style::Plain)),
        b'q' | b'p' => Piece::Takes(Directive::Written(Style::Quoted)),
        b'a' => Piece::Takes(Directive::Name),
        b'd' => Piece::Takes(Directive::Number),
        b'n' => Piece::Byte(b'\n'),
        b'~' => Piece::Byte(b'~'),
        _ => Piece::Amiss,
    }
}

/// The values of arguments: the elements of a list, or one value.
fn values_of(alloc: Global, heap: &Heap, arguments: &Option<Cell>) -> Result<Vec<Cell>, AllocError>
    requires { IsGiven heap.now arguments.now }
    ensures are { IfOk result (λ vs. map (value heap.now) vs.items ≡ arguments_of (given heap.now arguments.now)) }
    ensures there { IfOk result (λ vs. AreValues heap.now vs.items) }
{
    let Some(v) = arguments else {
        return Ok(Vec::new(alloc));
    };
    let list = elements_of(alloc, heap, *v)?;
    match list.tail {
        Tail::Empty => Ok(list.items),
        Tail::Unbound | Tail::Other => Ok(vec![in alloc; *v]?),
    }
}

/// The error of a format with what is no directive, or of another number of arguments than its directives take.
fn call_error(alloc: Global, heap: &Heap, call: &Call) -> Result<Option<Term>, AllocError>
    requires control { IsValue heap.now call.now.control }
    requires arguments { IsGiven heap.now call.now.arguments }
    ensures { IfOk result (λ error. error ≡ format_fault (value heap.now call.now.control) (given heap.now call.now.arguments) (map piece_as call.now.pieces.items) (map (value heap.now) call.now.values.items)) }
{
    if any_amiss(&call.pieces) {
        let culprit = heap.take(alloc, call.control)?;
        return Ok(Some(domain_error(alloc, "format_control", culprit)?));
    }
    if directives(&call.pieces) != call.values.len() {
        return Ok(Some(wrong_count(alloc, heap, call.arguments)?));
    }
    Ok(None)
}

/// Whether some of a format is no directive.
fn any_amiss(pieces: &[Piece]) -> bool
    ensures { result ≡ list_any is_amiss (map piece_as pieces.now) }
{
    for piece in pieces {
        if let Piece::Amiss = *piece {
            return true;
        }
    }
    false
}

/// How many directives take an argument.
fn directives(pieces: &[Piece]) -> usize
    ensures { result ≡ count_by takes_one (map piece_as pieces.now) }
{
    let mut count = 0;
    for piece in pieces {
        if let Piece::Takes(_) = *piece {
            count += 1;
        }
    }
    count
}

/// What the pieces of a format make of its arguments, from the left, or the first error. It ends at what is no directive and at a directive without an argument, of which there is none here.
fn formatted(
    alloc: Global,
    heap: &Heap,
    settings: &Settings,
    call: &Call,
) -> Result<Result<Vec<u8>, Term>, AllocError>
    requires { AreValues heap.now call.now.values.items }
    ensures { IfOk result (λ r. text_as r ≡ formatted_of settings.now (map piece_as call.now.pieces.items) (map (value heap.now) call.now.values.items)) }
{
    let mut text = Vec::new(alloc);
    let mut left = call.values.as_slice();
    for piece in &call.pieces {
        match *piece {
            Piece::Byte(c) => text.push(c)?,
            Piece::Amiss => return Ok(Ok(text)),
            Piece::Takes(directive) => {
                let Some((first, rest)) = left.split_first() else {
                    return Ok(Ok(text));
                };
                match argument_text(alloc, heap, settings, directive, *first)? {
                    Ok(more) => text.extend_from_slice(&more)?,
                    Err(error) => return Ok(Err(error)),
                }
                left = rest;
            }
        }
    }
    Ok(Ok(text))
}

/// The error of too few or too many arguments.
fn wrong_count(alloc: Global, heap: &Heap, arguments: Option<Cell>) -> Result<Term, AllocError>
    requires { IsGiven heap.now arguments }
    ensures { IfOk result (λ t. t ≡ domain_error_of (codes "format_arguments") (given heap.now arguments)) }
{
    let culprit = match arguments {
        Some(v) => heap.take(alloc, v)?,
        None => error::atom(alloc, "[]")?,
    };
    domain_error(alloc, "format_arguments", culprit)
}

/// What a directive makes of its argument.
fn argument_text(
    alloc: Global,
    heap: &Heap,
    settings: &Settings,
    directive: Directive,
    v: Cell,
) -> Result<Result<Vec<u8>, Term>, AllocError>
    requires { IsValue heap.now v }
    ensures { IfOk result (λ r. text_as r ≡ argument_text_of (directive_as directive) (value heap.now v) settings.now) }
{
    match (directive, shape_of(heap, &v)) {
        (Directive::Written(style), _) => {
            let term = heap.take(alloc, v)?;
            Ok(Ok(write_term(alloc, &term, &settings.operators, style)?))
        }
        (Directive::Name, Shape::Atom(name)) => {
            let text = heap.names().atom_name(name).as_str();
            Ok(Ok(Vec::from_slice(alloc, text.as_bytes())?))
        }
        (Directive::Name, _) => Ok(Err(type_error(alloc, heap, "atom", v)?)),
        (Directive::Number, Shape::Integer(number)) => {
            let mut buffer = Buffer::new();
            let text = buffer.format(number).as_bytes();
            Ok(Ok(Vec::from_slice(alloc, text)?))
        }
        (Directive::Number, _) => Ok(Err(type_error(alloc, heap, "integer", v)?)),
    }
}
