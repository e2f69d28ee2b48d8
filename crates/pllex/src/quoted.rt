//! Quoted items (6.4.2.1): names in single quotes, and double-quoted items.
ghost use Rattle.std.specs.Prelude.{◌≡◌, ◌≤◌, ◌<◌, ◌+◌, ◌^◌, drop, length, slice_index, ℕ};
ghost use Rattle.pllex.specs.Quoted.{mark, plain_turn, newline_turn, quoted_turn, counted, bounded, counted_turn, quoted};
ghost use Rattle.pllex.specs.Classes.{is_control};
ghost use Rattle.pllex.specs.Places.{KeepsFew, KeepsWithin, IsFew, EndsAt, IsEndWithin};
ghost use Rattle.pllex.specs.declared.quoted.Within.TheVariants.{Inside};

use crate::characters::{begins_with, rest_of_character};
use crate::escape::{AfterEscape, Escape, escape_turn};
use crate::token::Fault;

/// The quotes of an item: those of a name, or double ones.
#[derive(Clone, Copy, Debug, PartialEq, Eq)]
pub enum Quote {
    Single,
    Double,
}

/// Where in a quoted item a byte stands: at a character or in one, of which so many bytes are still to come; at
/// the second of two quotes; in an escape sequence whose backslash stands at a place.
#[derive(Clone, Copy)]
pub enum Within {
    Inside(usize),
    Twin,
    Escaped(usize, Escape),
}

/// What a byte of a quoted item does. The item goes on in a mode; a character is added to its value; the
/// character that stands here, of so many further bytes, is kept; the item closes; a fault is met.
#[derive(Clone, Copy)]
pub enum QuotedStep {
    Goes(Within),
    Adds(Within, char),
    Keeps(usize),
    Closes,
    Bad(Fault, usize),
}

/// A quoted item: the place behind its closing quote, or its first fault.
#[derive(Clone, Copy)]
pub enum Quoted {
    Closed(usize),
    Bad(Fault, usize),
}

/// How a quoted item goes on behind a byte: in a mode, with so many bytes of its value counted, or it ends.
#[derive(Clone, Copy)]
pub enum Onward {
    Goes(Within, usize),
    Ends(Quoted),
}

pub fn mark(quote: Quote) -> u8
    ensures { result ≡ mark quote }
{
    match quote {
        Quote::Single => b'\'',
        Quote::Double => b'"',
    }
}

/// No character of a quoted item: below 32 other than tab and newline, or 127.
pub fn is_control(b: u8) -> bool
    ensures { result ≡ is_control b }
{
    (b < 32 && b != b'\t' && b != b'\n') || b == 127
}

fn plain_turn(text: &[u8], place: usize, quote: Quote, start: usize) -> QuotedStep
    requires { place < length text.now }
    ensures value { result ≡ plain_turn quote start place (slice_index text.now place) (drop (place + 1) text.now) }
    ensures few { KeepsFew result }
    ensures within { KeepsWithin place (length text.now) result }
{
    let b = text[place];
    if b == mark(quote) {
        if begins_with(text, place + 1, mark(quote)) {
            QuotedStep::Adds(Within::Twin, char::from(b))
        } else {
            QuotedStep::Closes
        }
    } else if b == b'\\' {
        QuotedStep::Goes(Within::Escaped(place, Escape::Begins))
    } else if b == b'\n' {
        QuotedStep::Bad(Fault::OpenQuoted, start)
    } else if is_control(b) {
        QuotedStep::Bad(Fault::BadCharacter, place)
    } else {
        match rest_of_character(text, place) {
            Some(rest) => QuotedStep::Keeps(rest),
            None => QuotedStep::Bad(Fault::BadUtf8, place),
        }
    }
}

/// A newline in an escape sequence.
fn newline_turn(start: usize, escape: Escape) -> QuotedStep
    ensures value { result ≡ newline_turn start escape }
    ensures few { KeepsFew result }
    ensures within { (place len : ℕ) → KeepsWithin place len result }
{
    match escape {
        Escape::Begins => QuotedStep::Goes(Within::Inside(0)),
        Escape::BeforeDigits | Escape::Digits(_, _) => QuotedStep::Bad(Fault::OpenQuoted, start),
    }
}

pub(crate) fn quoted_turn(
    text: &[u8],
    place: usize,
    quote: Quote,
    start: usize,
    mode: Within,
) -> QuotedStep
    requires { place < length text.now }
    ensures value { result ≡ quoted_turn quote start mode place (slice_index text.now place) (drop (place + 1) text.now) }
    ensures few { KeepsFew result }
    ensures within { KeepsWithin place (length text.now) result }
{
    match mode {
        Within::Inside(rest) => {
            if rest == 0 {
                plain_turn(text, place, quote, start)
            } else {
                QuotedStep::Goes(Within::Inside(rest - 1))
            }
        }
        Within::Twin => QuotedStep::Goes(Within::Inside(0)),
        Within::Escaped(at, escape) => {
            let b = text[place];
            if b == b'\n' {
                return newline_turn(start, escape);
            }
            match escape_turn(escape, b) {
                AfterEscape::Goes(next) => QuotedStep::Goes(Within::Escaped(at, next)),
                AfterEscape::Is(c) => QuotedStep::Adds(Within::Inside(0), c),
                AfterEscape::Bad => QuotedStep::Bad(Fault::BadEscape, at),
            }
        }
    }
}

/// How many bytes a name's value has with some more; those of a double-quoted item are not counted.
fn counted(quote: Quote, count: usize, more: usize) -> usize
    requires { count + more < 2 ^ 64 }
    ensures { result ≡ counted quote count more }
{
    match quote {
        Quote::Single => count + more,
        Quote::Double => count,
    }
}

/// A name's value has at most 65,535 bytes.
fn bounded(quote: Quote, start: usize, count: usize, more: usize, next: Within) -> Onward
    requires { count + more < 2 ^ 64 }
    ensures value { result ≡ bounded quote start count more next }
    ensures few { IsFew result }
{
    let count = counted(quote, count, more);
    if count <= 65535 {
        Onward::Goes(next, count)
    } else {
        Onward::Ends(Quoted::Bad(Fault::NameTooLong, start))
    }
}

fn counted_turn(quote: Quote, start: usize, count: usize, place: usize, turn: QuotedStep) -> Onward
    requires count { count ≤ 65535 }
    requires place { place + 1 < 2 ^ 64 }
    requires few { KeepsFew turn }
    ensures value { result ≡ counted_turn quote start count place turn }
    ensures few { IsFew result }
    ensures behind { EndsAt place result }
{
    match turn {
        QuotedStep::Goes(next) => Onward::Goes(next, count),
        QuotedStep::Adds(next, c) => bounded(quote, start, count, c.len_utf8(), next),
        QuotedStep::Keeps(rest) => bounded(quote, start, count, rest + 1, Within::Inside(rest)),
        QuotedStep::Closes => Onward::Ends(Quoted::Closed(place + 1)),
        QuotedStep::Bad(fault, at) => Onward::Ends(Quoted::Bad(fault, at)),
    }
}

/// Where a quoted item ends, whose opening quote stands at a place.
#[tactic(auto, using(crate::proofs::Quotes::quoted_goes, crate::proofs::Quotes::quoted_ends, crate::proofs::Quotes::quoted_over))]
pub fn quoted_end(text: &[u8], start: usize, quote: Quote) -> Quoted
    requires { start < length text.now }
    ensures value { result ≡ quoted quote start (Inside 0) 0 (start + 1) (drop (start + 1) text.now) }
    ensures within { IsEndWithin start (length text.now) result }
{
    let mut mode = Within::Inside(0);
    let mut count = 0;
    let mut place = start + 1;
    while place < text.len() {
        let turn = quoted_turn(text, place, quote, start, mode);
        match counted_turn(quote, start, count, place, turn) {
            Onward::Goes(next, more) => {
                mode = next;
                count = more;
            }
            Onward::Ends(end) => return end,
        }
        place += 1;
    }
    Quoted::Bad(Fault::OpenQuoted, start)
}
