//! Built-in predicates that write (ISO/IEC 13211-1 8.11.7, 8.12, 8.14).
ghost use Rattle.std.specs.Prelude.{◌≡◌, ℕ, [], ◌∷◌, Ok, IfOk, map};
ghost use Rattle.plcells.specs.Store.{Store, value, IsValue, AreValues};
ghost use Rattle.plarith.specs.Evaluation.{eval as eval_of};
ghost use Rattle.plprogram.specs.declared.settings.Settings.{Settings};
ghost use Rattle.plnames.specs.declared.kind.Spelling.TheVariants.{Characters};
ghost use Rattle.plbuiltin.specs.Format.{format as formats};
ghost use Rattle.plbuiltin.specs.Output.{on_output, term_output, line_output, character_output, spaces as spaces_of};
ghost use Rattle.plbuiltin.specs.Solution.{writes};
ghost use Rattle.plbuiltin.specs.Texts.{character_of as character_in};
ghost use Rattle.planswers.specs.Answers.{IsThere, meant};

use crate::format::format;
use planswers::answer::Answer;
use planswers::text::character_of;
use plarith::value::eval;
use plcells::cell::Cell;
use plcells::heap::Heap;
use plnames::kind::{Output, Spelling};
use plprogram::settings::Settings;
use plwrite::style::Style;
use plwrite::write::write_term;
use std::alloc::{AllocError, Global};

/// What a call of one of them comes to.
pub fn output_answer(
    alloc: Global,
    heap: &Heap,
    settings: &Settings,
    b: Output,
    args: &[Cell],
) -> Result<Answer, AllocError>
    requires args { AreValues heap.now args.now }
    ensures is { IfOk result (λ answer. (n : ℕ) → meant heap.now settings.now n answer ≡ on_output b (map (value heap.now) args.now) settings.now) }
    ensures there { IfOk result (IsThere heap.now) }
{
    match (b, args) {
        (Output::Write, [v]) => write(alloc, heap, settings, Style::Plain, *v),
        (Output::WriteQuoted, [v]) => write(alloc, heap, settings, Style::Quoted, *v),
        (Output::WriteCanonical, [v]) => write(alloc, heap, settings, Style::Canonical, *v),
        (Output::WriteLine, [v]) => write_line(alloc, heap, settings, *v),
        (Output::Newline, []) => fixed(alloc, b"\n"),
        (Output::Flush, []) => Ok(Answer::Succeeds),
        (Output::PutCharacter, [c]) => put_character(alloc, heap, *c),
        (Output::Tab, [e]) => tab(alloc, heap, *e),
        (Output::Format, _) => format_of(alloc, heap, settings, args),
        _ => Ok(Answer::Fails),
    }
}

/// format/1 and format/2.
fn format_of(
    alloc: Global,
    heap: &Heap,
    settings: &Settings,
    args: &[Cell],
) -> Result<Answer, AllocError>
    requires args { AreValues heap.now args.now }
    ensures is { IfOk result (λ answer. (n : ℕ) → meant heap.now settings.now n answer ≡ formats (map (value heap.now) args.now) settings.now) }
    ensures there { IfOk result (IsThere heap.now) }
{
    match args {
        [control] => format(alloc, heap, settings, *control, None),
        [control, values] => format(alloc, heap, settings, *control, Some(*values)),
        _ => Ok(Answer::Fails),
    }
}

/// write/1, writeq/1, print/1 and write_canonical/1 (8.14.2).
fn write(
    alloc: Global,
    heap: &Heap,
    settings: &Settings,
    style: Style,
    v: Cell,
) -> Result<Answer, AllocError>
    requires { IsValue heap.now v }
    ensures is { IfOk result (λ answer. (n : ℕ) → meant heap.now settings.now n answer ≡ term_output style (value heap.now v ∷ []) settings.now) }
    ensures there { IfOk result (IsThere heap.now) }
{
    let term = heap.take(alloc, v)?;
    let text = write_term(alloc, &term, &settings.operators, style)?;
    Ok(Answer::Writes(text))
}

/// writeln/1.
fn write_line(
    alloc: Global,
    heap: &Heap,
    settings: &Settings,
    v: Cell,
) -> Result<Answer, AllocError>
    requires { IsValue heap.now v }
    ensures is { IfOk result (λ answer. (n : ℕ) → meant heap.now settings.now n answer ≡ line_output (value heap.now v ∷ []) settings.now) }
    ensures there { IfOk result (IsThere heap.now) }
{
    let term = heap.take(alloc, v)?;
    let mut text = write_term(alloc, &term, &settings.operators, Style::Plain)?;
    text.push(b'\n')?;
    Ok(Answer::Writes(text))
}

/// A text is written.
fn fixed(alloc: Global, text: &[u8]) -> Result<Answer, AllocError>
    ensures is { IfOk result (λ answer. (h : Store) (s : Settings) (n : ℕ) → meant h s n answer ≡ writes text.now s) }
    ensures there { IfOk result (λ answer. (h : Store) → IsThere h answer) }
{
    Ok(Answer::Writes(Vec::from_slice(alloc, text)?))
}

/// put_char/1 (8.12.3).
fn put_character(alloc: Global, heap: &Heap, c: Cell) -> Result<Answer, AllocError>
    requires { IsValue heap.now c }
    ensures is { IfOk result (λ answer. (s : Settings) (n : ℕ) → meant heap.now s n answer ≡ character_output (character_in Characters (value heap.now c)) s) }
    ensures there { IfOk result (IsThere heap.now) }
{
    match character_of(alloc, heap, Spelling::Characters, c)? {
        Ok(found) => {
            let mut bytes = [0; 4];
            fixed(alloc, found.encode_utf8(&mut bytes).as_bytes())
        }
        Err(error) => Ok(Answer::Raises(error)),
    }
}

/// tab/1: as many spaces as an expression comes to.
fn tab(alloc: Global, heap: &Heap, expression: Cell) -> Result<Answer, AllocError>
    requires { IsValue heap.now expression }
    ensures is { IfOk result (λ answer. (s : Settings) (n : ℕ) → meant heap.now s n answer ≡ spaces_of (eval_of (value heap.now expression)) s) }
    ensures there { IfOk result (IsThere heap.now) }
{
    match eval(alloc, heap, expression)? {
        Ok(number) => spaces(alloc, number),
        Err(error) => Ok(Answer::Raises(error.term(alloc)?)),
    }
}

/// So many spaces are written, of a negative number none.
fn spaces(alloc: Global, number: i64) -> Result<Answer, AllocError>
    ensures is { IfOk result (λ answer. (h : Store) (s : Settings) (n : ℕ) → meant h s n answer ≡ spaces_of (Ok number) s) }
    ensures there { IfOk result (λ answer. (h : Store) → IsThere h answer) }
{
    let count = number.max(0) as usize;
    let mut text = Vec::new(alloc);
    text.resize(count, b' ')?;
    Ok(Answer::Writes(text))
}
