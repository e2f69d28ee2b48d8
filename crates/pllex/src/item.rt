//! One token, or a fault.
ghost use Rattle.std.specs.Prelude.{◌≡◌, ◌≤◌, ◌+◌, ◌-◌, ◌^◌, ◌<◌, drop, length, slice_index, if◌then◌else◌, nat_le, Some, None};
ghost use Rattle.pllex.specs.Tokens.{run_end, ends_here, named, symbols, token, stray, punctuation, marked, quoted_item, item_of, item_at};
ghost use Rattle.pllex.specs.Places.{Advances};
ghost use Rattle.pllex.specs.declared.token.Class.TheVariants.{Alphanumeric};

use crate::characters::rest_of_character;
use crate::digits::is_digit;
use crate::number::number;
use crate::quoted::{Quote, Quoted, quoted_end};
use crate::runs::{is_layout, run_end};
use crate::token::{Base, Class, Fault, Kind, Scanned, Token};
use plterm::characters::is_symbol;

fn named(kind: Kind, start: usize, end: usize) -> Scanned
    requires { start < end }
    ensures value { result ≡ named kind start end }
    ensures advances { Advances start end result }
{
    if end - start <= 65535 {
        Scanned::Token(Token { kind, start, end })
    } else {
        Scanned::Fault(Fault::NameTooLong, start)
    }
}

#[tactic(auto, using(crate::proofs::RunEnds::drop_here, crate::proofs::RunEnds::drop_over))]
fn ends_here(text: &[u8], place: usize) -> bool
    requires { place ≤ length text.now }
    ensures { result ≡ ends_here (drop place text.now) }
{
    place >= text.len() || is_layout(text[place]) || text[place] == b'%'
}

fn symbols(text: &[u8], place: usize, end: usize) -> Scanned
    requires place { place < end }
    requires within { end ≤ length text.now }
    ensures advances { Advances place end result }
    ensures value { let b = slice_index text.now place in
        result ≡ symbols b place end (drop (place + 1) text.now) }
{
    if text[place] == b'.' && ends_here(text, place + 1) {
        Scanned::Token(Token {
            kind: Kind::End,
            start: place,
            end: place + 1,
        })
    } else {
        named(Kind::Name, place, end)
    }
}

fn single(kind: Kind, place: usize) -> Scanned
    requires { place + 1 < 2 ^ 64 }
    ensures advances { Advances place (place + 1) result }
    ensures value { result ≡ token kind place (place + 1) }
{
    Scanned::Token(Token {
        kind,
        start: place,
        end: place + 1,
    })
}

/// Why the byte at a place begins no token.
fn stray(text: &[u8], place: usize) -> Fault
    requires { place < length text.now }
    ensures { result ≡ stray (slice_index text.now place) (drop (place + 1) text.now) }
{
    match rest_of_character(text, place) {
        Some(_) => Fault::BadCharacter,
        None => Fault::BadUtf8,
    }
}

/// A name or a variable of letters, digits and underscores.
fn word(kind: Kind, text: &[u8], place: usize) -> Scanned
    requires { place < length text.now }
    ensures advances { Advances place (length text.now) result }
    ensures value { result ≡ named kind place (run_end Alphanumeric (place + 1) (drop (place + 1) text.now)) }
{
    named(kind, place, run_end(text, place + 1, Class::Alphanumeric))
}

fn punctuation(b: u8) -> Option<Kind>
    ensures { result ≡ punctuation b }
{
    match b {
        b'(' => Some(Kind::Open),
        b')' => Some(Kind::Close),
        b'[' => Some(Kind::OpenSquare),
        b']' => Some(Kind::CloseSquare),
        b'{' => Some(Kind::OpenCurly),
        b'}' => Some(Kind::CloseCurly),
        b',' => Some(Kind::Comma),
        b'|' => Some(Kind::Bar),
        _ => None,
    }
}

/// A mark, a name of symbol characters, or no token.
fn marked(text: &[u8], place: usize) -> Scanned
    requires { place < length text.now }
    ensures advances { Advances place (length text.now) result }
    ensures value { let b = slice_index text.now place in
        result ≡ marked place b (drop (place + 1) text.now) (punctuation b) }
{
    match punctuation(text[place]) {
        Some(kind) => single(kind, place),
        None => {
            if is_symbol(text[place]) {
                let end = run_end(text, place + 1, Class::Symbol);
                symbols(text, place, end)
            } else {
                Scanned::Fault(stray(text, place), place)
            }
        }
    }
}

/// A quoted item.
fn quoted_item(text: &[u8], start: usize, quote: Quote, kind: Kind) -> Scanned
    requires { start < length text.now }
    ensures advances { Advances start (length text.now) result }
    ensures value { result ≡ quoted_item quote kind start (drop (start + 1) text.now) }
{
    match quoted_end(text, start, quote) {
        Quoted::Closed(end) => Scanned::Token(Token { kind, start, end }),
        Quoted::Bad(fault, at) => Scanned::Fault(fault, at),
    }
}

#[tactic(auto, unfolding(crate::specs::Tokens::item_of))]
fn item_of(text: &[u8], place: usize) -> Scanned
    requires { place < length text.now }
    ensures advances { Advances place (length text.now) result }
    ensures value { let b = slice_index text.now place in
        result ≡ item_of text.now place b (drop (place + 1) text.now) }
{
    let b = text[place];
    if b.is_ascii_lowercase() {
        word(Kind::Name, text, place)
    } else if b.is_ascii_uppercase() || b == b'_' {
        word(Kind::Variable, text, place)
    } else if is_digit(Base::Decimal, b) {
        number(text, place)
    } else if b == b'\'' {
        quoted_item(text, place, Quote::Single, Kind::QuotedName)
    } else if b == b'"' {
        quoted_item(text, place, Quote::Double, Kind::DoubleQuoted)
    } else if b == b'!' || b == b';' {
        single(Kind::Name, place)
    } else {
        marked(text, place)
    }
}

/// What stands at a place.
#[tactic(auto, using(crate::proofs::RunEnds::drop_here, crate::proofs::RunEnds::drop_over))]
pub fn item_at(text: &[u8], place: usize) -> Scanned
    requires { place ≤ length text.now }
    ensures value { result ≡ item_at text.now place (drop place text.now) }
    ensures advances { Advances place (length text.now) result }
{
    if place < text.len() {
        item_of(text, place)
    } else {
        Scanned::Nothing
    }
}
