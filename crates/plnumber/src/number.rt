//! A text as an integer.
ghost use Rattle.std.specs.Prelude.{◌≡◌, ◌≤◌, drop, length};
ghost use Rattle.pllex.specs.Tokens.{item_at};
ghost use Rattle.plnumber.specs.Numbers.{integer_value, last_integer, unsigned, number_at, number_of};

use pllex::characters::begins_with;
use pllex::item::item_at;
use pllex::layout::{Gap, gap_at};
use pllex::token::{Kind, Scanned};
use plread::looks::negative;

/// The value of an integer token.
fn integer_value(kind: Kind) -> Option<u64>
    ensures { result ≡ integer_value kind }
{
    match kind {
        Kind::Integer(n) => Some(n),
        _ => None,
    }
}

/// The value of the integer token at a place, if the text ends behind it.
fn last_integer(text: &[u8], place: usize) -> Option<u64>
    requires { place ≤ length text.now }
    ensures { result ≡ last_integer text.now (item_at text.now place (drop place text.now)) }
{
    match item_at(text, place) {
        Scanned::Token(token) => {
            if token.end == text.len() {
                integer_value(token.kind)
            } else {
                None
            }
        }
        Scanned::Fault(_, _) | Scanned::Nothing => None,
    }
}

/// The value of an integer without a sign.
fn unsigned(n: u64) -> Option<i64>
    ensures { result ≡ unsigned n }
{
    if n < 9223372036854775808 {
        Some(n as i64)
    } else {
        None
    }
}

/// The integer at a place, with a sign or without one, if the text ends behind it.
fn number_at(text: &[u8], place: usize) -> Option<i64>
    requires { place ≤ length text.now }
    ensures { result ≡ number_at text.now place (drop place text.now) }
{
    if begins_with(text, place, b'-') {
        last_integer(text, place + 1).and_then(negative)
    } else {
        last_integer(text, place).and_then(unsigned)
    }
}

/// The integer that a text is, as number_codes/2, number_chars/2 and atom_number/2 read it (8.16.7, 8.16.8): behind layout or none, a `-` or none directly before one integer token, and no more. None for any other text, which is a syntax error `illegal_number`.
#[tactic(auto, unfolding(crate::specs::Numbers::number_of))]
pub fn number_of(text: &[u8]) -> Option<i64>
    ensures { result ≡ number_of text.now }
{
    match gap_at(text, 0) {
        Gap::Before(place) => number_at(text, place),
        Gap::Unclosed(_) | Gap::Bad(_) => None,
    }
}
