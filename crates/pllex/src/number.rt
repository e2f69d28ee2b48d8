//! Integers (6.4.4).
ghost use Rattle.std.specs.Prelude.{◌≡◌, ◌≤◌, ◌+◌, ◌<◌, ◌^◌, drop, length, slice_index, true};
ghost use Rattle.pllex.specs.Tokens.{begins_in, is_fraction, token, integer, in_range, value, decimal, based, base_of, after_letter, bare_code, character_code, zero_number, number};
ghost use Rattle.pllex.specs.Characters.{rest_of_character};
ghost use Rattle.pllex.specs.Classes.{is_digit};
ghost use Rattle.pllex.specs.Places.{Advances};
ghost use Rattle.pllex.specs.declared.token.Base.TheVariants.{Decimal};
ghost use Rattle.pllex.specs.declared.token.Kind.TheVariants.{Integer};
ghost use Rattle.pllex.specs.declared.token.Class.TheVariants.{Digit};

use crate::characters::{begins_with, code_at, rest_of_character};
use crate::digits::{is_digit, value_of};
use crate::escape::{Coded, escape_code};
use crate::quoted::is_control;
use crate::runs::run_end;
use crate::token::{Base, Class, Fault, Kind, Scanned, Token};

#[tactic(auto, using(crate::proofs::RunEnds::drop_here, crate::proofs::RunEnds::drop_over))]
fn begins_with_digit(text: &[u8], place: usize, base: Base) -> bool
    requires { place ≤ length text.now }
    ensures { result ≡ begins_in (Digit base) (drop place text.now) }
{
    place < text.len() && is_digit(base, text[place])
}

#[tactic(auto, using(crate::proofs::RunEnds::drop_here, crate::proofs::RunEnds::drop_over))]
fn is_fraction(text: &[u8], place: usize) -> bool
    requires { place ≤ length text.now }
    ensures { result ≡ is_fraction (drop place text.now) }
{
    place < text.len() && text[place] == b'.' && begins_with_digit(text, place + 1, Base::Decimal)
}

fn integer(value: Option<u64>, start: usize, end: usize) -> Scanned
    requires { start < end }
    ensures value { result ≡ integer value start end }
    ensures advances { Advances start end result }
{
    match value {
        Some(n) => Scanned::Token(Token {
            kind: Kind::Integer(n),
            start,
            end,
        }),
        None => Scanned::Fault(Fault::IntTooBig, start),
    }
}

/// Decimal digits.
fn decimal(text: &[u8], start: usize) -> Scanned
    requires within { start < length text.now }
    requires digit { is_digit Decimal (slice_index text.now start) ≡ true }
    ensures value { result ≡ decimal text.now start (drop start text.now) }
    ensures advances { Advances start (length text.now) result }
{
    let end = run_end(text, start, Class::Digit(Base::Decimal));
    if is_fraction(text, end) {
        Scanned::Fault(Fault::FloatLiteral, start)
    } else {
        integer(value_of(text, start, Base::Decimal), start, end)
    }
}

/// Digits of a base behind two characters.
fn based(text: &[u8], start: usize, base: Base) -> Scanned
    requires { start + 2 ≤ length text.now }
    ensures value { result ≡ based base start (drop (start + 2) text.now) }
    ensures advances { Advances start (length text.now) result }
{
    let end = run_end(text, start + 2, Class::Digit(base));
    integer(value_of(text, start + 2, base), start, end)
}

/// The base that a letter behind a 0 names.
fn base_of(b: u8) -> Option<Base>
    ensures { result ≡ base_of b }
{
    match b {
        b'x' => Some(Base::Hexadecimal),
        b'o' => Some(Base::Octal),
        b'b' => Some(Base::Binary),
        _ => None,
    }
}

fn code(value: u64, start: usize, end: usize) -> Scanned
    requires { start < end }
    ensures value { result ≡ token (Integer value) start end }
    ensures advances { Advances start end result }
{
    Scanned::Token(Token {
        kind: Kind::Integer(value),
        start,
        end,
    })
}

/// The code of a character that stands for itself, behind 0 and a quote.
fn bare_code(text: &[u8], start: usize) -> Scanned
    requires { start + 2 < length text.now }
    ensures value { let b = slice_index text.now (start + 2) in let bytes = drop (start + 3) text.now in
        result ≡ bare_code start b bytes (rest_of_character b bytes) }
    ensures advances { Advances start (length text.now) result }
{
    match rest_of_character(text, start + 2) {
        Some(rest) => code(code_at(text, start + 2, rest), start, start + 3 + rest),
        None => Scanned::Fault(Fault::BadUtf8, start + 2),
    }
}

/// The code of a character behind 0 and a quote.
fn character_code(text: &[u8], start: usize) -> Scanned
    requires { start + 2 ≤ length text.now }
    ensures value { result ≡ character_code start (drop (start + 2) text.now) }
    ensures advances { Advances start (length text.now) result }
{
    if start + 2 >= text.len() {
        return code(0, start, start + 1);
    }
    let b = text[start + 2];
    if b == b'\'' {
        let twice = begins_with(text, start + 3, b'\'');
        code(39, start, if twice { start + 4 } else { start + 3 })
    } else if b == b'\\' {
        match escape_code(text, start + 3) {
            Coded::Character(c, end) => code(u64::from(u32::from(c)), start, end),
            Coded::NoCharacter => Scanned::Fault(Fault::BadEscape, start + 2),
        }
    } else if b == b'\n' || is_control(b) {
        Scanned::Fault(Fault::BadCharacter, start + 2)
    } else {
        bare_code(text, start)
    }
}

/// A number that begins with 0.
fn zero_number(text: &[u8], start: usize) -> Scanned
    requires within { start < length text.now }
    requires zero { slice_index text.now start ≡ 48 }
    ensures value { result ≡ zero_number text.now start (drop (start + 1) text.now) }
    ensures advances { Advances start (length text.now) result }
{
    if start + 1 >= text.len() {
        return decimal(text, start);
    }
    if text[start + 1] == b'\'' {
        return character_code(text, start);
    }
    match base_of(text[start + 1]) {
        Some(base) if begins_with_digit(text, start + 2, base) => based(text, start, base),
        _ => decimal(text, start),
    }
}

/// An integer.
pub fn number(text: &[u8], start: usize) -> Scanned
    requires within { start < length text.now }
    requires digit { is_digit Decimal (slice_index text.now start) ≡ true }
    ensures value { result ≡ number text.now start (slice_index text.now start) (drop (start + 1) text.now) }
    ensures advances { Advances start (length text.now) result }
{
    if text[start] == b'0' {
        zero_number(text, start)
    } else {
        decimal(text, start)
    }
}
