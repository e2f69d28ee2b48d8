//! Digits of a base, and what they count.
ghost use Rattle.std.specs.Prelude.{◌≡◌, ◌≤◌, ◌<◌, ◌+◌, ◌*◌, ◌^◌, drop, length, if◌then◌else◌, nat_le, Some, None};
ghost use Rattle.std.specs.Char.{digit_value};
ghost use Rattle.pllex.specs.Classes.{radix, is_digit};
ghost use Rattle.pllex.specs.Tokens.{value, in_range};

use crate::token::Base;

/// The greatest value of an integer token, 2^63.
const GREATEST: u64 = 9223372036854775808;

/// What a digit or a letter counts; 36 for other bytes.
fn digit_value(b: u8) -> u8
    ensures value { result ≡ digit_value b }
    ensures small { result ≤ 36 }
{
    if b < b'0' {
        36
    } else if b <= b'9' {
        b - b'0'
    } else if b < b'A' {
        36
    } else if b <= b'Z' {
        b - 55
    } else if b < b'a' {
        36
    } else if b <= b'z' {
        b - 87
    } else {
        36
    }
}

fn radix(base: Base) -> u8
    ensures { result ≡ radix base }
{
    match base {
        Base::Binary => 2,
        Base::Octal => 8,
        Base::Decimal => 10,
        Base::Hexadecimal => 16,
    }
}

pub fn is_digit(base: Base, b: u8) -> bool
    ensures { result ≡ is_digit base b }
{
    digit_value(b) < radix(base)
}

/// A number with one more digit, where it is at most a limit below 2^64.
pub fn with_digit(base: Base, number: u64, b: u8, limit: u64) -> Option<u64>
    ensures { let n = radix base * number + digit_value b in
        result ≡ (if nat_le n limit then Some n else None) }
{
    let wide = u128::from(number);
    let times = match base {
        Base::Binary => 2 * wide,
        Base::Octal => 8 * wide,
        Base::Decimal => 10 * wide,
        Base::Hexadecimal => 16 * wide,
    };
    let next = times + u128::from(digit_value(b));
    if next <= u128::from(limit) {
        Some(next as u64)
    } else {
        None
    }
}

/// The value of the digits of a base from a place on, where it is at most 2 ^ 63.
#[tactic(auto, using(crate::proofs::Values::value_stops, crate::proofs::Values::value_over))]
pub fn value_of(text: &[u8], from: usize, base: Base) -> Option<u64>
    requires { from ≤ length text.now }
    ensures { result ≡ in_range (value base 0 (drop from text.now)) }
{
    let mut number = 0;
    let mut place = from;
    while place < text.len() && is_digit(base, text[place]) {
        match with_digit(base, number, text[place], GREATEST) {
            Some(next) => number = next,
            None => return None,
        }
        place += 1;
    }
    Some(number)
}
