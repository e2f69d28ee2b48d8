//! The values of tokens.
ghost use Rattle.std.specs.Prelude.{◌≡◌, ◌<◌, ◌≤◌, ◌+◌, ◌++◌, drop, length, true, IfOk, OnOk, encode_utf8, string_bytes};
ghost use Rattle.std.specs.Str.{is_utf8};
ghost use Rattle.pllex.specs.Named.{bytes_of, value_within, value_of, IsNamedAs, has_value};
ghost use Rattle.pllex.specs.Quoted.{value_step, next_mode};
ghost use Rattle.pllex.specs.Places.{KeepsWithin};

use crate::quoted::{Quote, QuotedStep, Within, quoted_turn};
use crate::token::{Kind, Token};
use std::alloc::{AllocError, Global};

/// Adds a character's bytes.
fn push_character(value: &mut Vec<u8>, c: char) -> Result<(), AllocError>
    ensures { OnOk result (value.new.items ≡ value.old.items ++ encode_utf8 c) }
{
    let mut room = [0; 4];
    value.extend_from_slice(c.encode_utf8(&mut room).as_bytes())
}

/// Adds what a byte of a quoted item adds to its value.
fn push_turn(
    value: &mut Vec<u8>,
    text: &[u8],
    place: usize,
    turn: QuotedStep,
) -> Result<(), AllocError>
    requires place { place < length text.now }
    requires within { KeepsWithin place (length text.now) turn }
    ensures { OnOk result (value.new.items ≡ value.old.items ++ value_step (drop place text.now) turn) }
{
    match turn {
        QuotedStep::Adds(_, c) => push_character(value, c),
        QuotedStep::Keeps(rest) => value.extend_from_slice(&text[place..place + rest + 1]),
        QuotedStep::Goes(_) | QuotedStep::Closes | QuotedStep::Bad(_, _) => Ok(()),
    }
}

/// The mode in which an item goes on, if it does.
fn next_mode(turn: QuotedStep) -> Option<Within>
    ensures { result ≡ next_mode turn }
{
    match turn {
        QuotedStep::Goes(next) | QuotedStep::Adds(next, _) => Some(next),
        QuotedStep::Keeps(rest) => Some(Within::Inside(rest)),
        QuotedStep::Closes | QuotedStep::Bad(_, _) => None,
    }
}

/// The bytes of the value of the quoted item that starts at a place.
#[tactic(auto, using(crate::proofs::Quotes::value_goes, crate::proofs::Quotes::value_stops, crate::proofs::Quotes::value_over))]
fn value_bytes(
    alloc: Global,
    text: &[u8],
    start: usize,
    quote: Quote,
) -> Result<Vec<u8>, AllocError>
    requires { start < length text.now }
    ensures { IfOk result (λ v. v.items ≡ value_within quote text.now start) }
{
    let mut value = Vec::new(alloc);
    let mut mode = Within::Inside(0);
    let mut place = start + 1;
    while place < text.len() {
        let turn = quoted_turn(text, place, quote, start, mode);
        push_turn(&mut value, text, place, turn)?;
        match next_mode(turn) {
            Some(next) => mode = next,
            None => return Ok(value),
        }
        place += 1;
    }
    Ok(value)
}

/// Bytes that are text, as text.
fn as_text(alloc: Global, bytes: Vec<u8>) -> String
    requires { is_utf8 bytes.items ≡ true }
    ensures { string_bytes result ≡ bytes.items }
{
    match String::from_utf8(bytes) {
        Ok(text) => text,
        Err(_) => String::new(alloc),
    }
}

/// The bytes of a token.
fn bytes_of(alloc: Global, text: &[u8], token: &Token) -> Result<Vec<u8>, AllocError>
    requires ordered { token.now.start ≤ token.now.end }
    requires within { token.now.end ≤ length text.now }
    ensures { IfOk result (λ v. v.items ≡ bytes_of text.now token.now) }
{
    let mut bytes = Vec::new(alloc);
    bytes.extend_from_slice(&text[token.start..token.end])?;
    Ok(bytes)
}

/// Whether tokens of a kind have a value: names, variables and quoted items.
pub fn has_value(kind: Kind) -> bool
    ensures { result ≡ has_value kind }
{
    match kind {
        Kind::Name | Kind::QuotedName | Kind::Variable | Kind::DoubleQuoted => true,
        _ => false,
    }
}

/// The value of a token that has one: that of a quoted item, with escape sequences and doubled quotes resolved, or
/// the bytes of a name or a variable. The time is linear in the token's length.
pub fn value_of(alloc: Global, text: &[u8], token: &Token) -> Result<String, AllocError>
    requires kind { has_value token.now.kind ≡ true }
    requires named { IsNamedAs token.now.kind text.now token.now }
    ensures { IfOk result (λ s. string_bytes s ≡ value_of text.now token.now) }
{
    match token.kind {
        Kind::Name | Kind::Variable => Ok(as_text(alloc, bytes_of(alloc, text, token)?)),
        Kind::QuotedName => {
            let bytes = value_bytes(alloc, text, token.start, Quote::Single)?;
            Ok(as_text(alloc, bytes))
        }
        Kind::DoubleQuoted => {
            let bytes = value_bytes(alloc, text, token.start, Quote::Double)?;
            Ok(as_text(alloc, bytes))
        }
        _ => Ok(String::new(alloc)),
    }
}
