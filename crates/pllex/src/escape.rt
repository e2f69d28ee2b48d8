//! Escape sequences (6.4.2.1).
ghost use Rattle.std.specs.Prelude.{◌≡◌, ◌≤◌, ◌<◌, ◌+◌, drop, length};
ghost use Rattle.pllex.specs.Escapes.{escaped, escape_turn, of_code, in_code, escape_code};
ghost use Rattle.pllex.specs.Places.{IsCoded};
ghost use Rattle.pllex.specs.declared.escape.Escape.TheVariants.{Begins};

use crate::digits::{is_digit, with_digit};
use crate::token::Base;

/// Where in an escape sequence a byte stands: behind the backslash, behind `\x`, or behind digits of a code.
#[derive(Clone, Copy)]
pub enum Escape {
    Begins,
    BeforeDigits,
    Digits(Base, u32),
}

/// What a byte of an escape sequence does: the sequence goes on, ends as a character, or is none.
#[derive(Clone, Copy)]
pub enum AfterEscape {
    Goes(Escape),
    Is(char),
    Bad,
}

/// An escape sequence: its character and the place behind it, or none.
#[derive(Clone, Copy)]
pub enum Coded {
    Character(char, usize),
    NoCharacter,
}

/// The character of a backslash and one more byte.
fn escaped(b: u8) -> Option<char>
    ensures { result ≡ escaped b }
{
    match b {
        b'\\' | b'\'' | b'"' | b'`' => Some(char::from(b)),
        b'a' => Some('\x07'),
        b'b' => Some('\x08'),
        b'f' => Some('\x0C'),
        b'n' => Some('\n'),
        b'r' => Some('\r'),
        b't' => Some('\t'),
        b'v' => Some('\x0B'),
        _ => None,
    }
}

/// A digit of a code: the code so far is at most 0x10FFFF.
fn in_code(base: Base, code: u32, b: u8) -> AfterEscape
    ensures { result ≡ in_code base code b }
{
    match with_digit(base, u64::from(code), b, 0x10FFFF) {
        Some(next) => AfterEscape::Goes(Escape::Digits(base, next as u32)),
        None => AfterEscape::Bad,
    }
}

/// The end of a code.
fn of_code(code: u32) -> AfterEscape
    ensures { result ≡ of_code code }
{
    match char::from_u32(code) {
        Some(c) => AfterEscape::Is(c),
        None => AfterEscape::Bad,
    }
}

pub(crate) fn escape_turn(escape: Escape, b: u8) -> AfterEscape
    ensures { result ≡ escape_turn escape b }
{
    match escape {
        Escape::Begins => {
            if b == b'x' {
                AfterEscape::Goes(Escape::BeforeDigits)
            } else if is_digit(Base::Octal, b) {
                in_code(Base::Octal, 0, b)
            } else {
                match escaped(b) {
                    Some(c) => AfterEscape::Is(c),
                    None => AfterEscape::Bad,
                }
            }
        }
        Escape::BeforeDigits => {
            if is_digit(Base::Hexadecimal, b) {
                in_code(Base::Hexadecimal, 0, b)
            } else {
                AfterEscape::Bad
            }
        }
        Escape::Digits(base, code) => {
            if is_digit(base, b) {
                in_code(base, code, b)
            } else if b == b'\\' {
                of_code(code)
            } else {
                AfterEscape::Bad
            }
        }
    }
}

/// The escape sequence whose backslash stands before a place.
#[tactic(auto, using(crate::proofs::Escapes::code_goes, crate::proofs::Escapes::code_is, crate::proofs::Escapes::code_bad, crate::proofs::Escapes::code_over))]
pub fn escape_code(text: &[u8], from: usize) -> Coded
    requires { from ≤ length text.now }
    ensures value { result ≡ escape_code Begins from (drop from text.now) }
    ensures within { IsCoded from (length text.now) result }
{
    let mut escape = Escape::Begins;
    let mut place = from;
    while place < text.len() {
        match escape_turn(escape, text[place]) {
            AfterEscape::Goes(next) => escape = next,
            AfterEscape::Is(c) => return Coded::Character(c, place + 1),
            AfterEscape::Bad => return Coded::NoCharacter,
        }
        place += 1;
    }
    Coded::NoCharacter
}
