//! Characters past ASCII, each decoded where it stands.
ghost use Rattle.std.specs.Prelude.{◌≡◌, ◌≤◌, ◌+◌, ◌<◌, ◌^◌, drop, take, length, slice_index, true, IfSome};
ghost use Rattle.std.specs.Str.{is_utf8};
ghost use Rattle.pllex.specs.Characters.{begins_with, width, is_character, rest_of_character, code_at, after_mark};

use std::str;

/// Whether a byte stands at a place.
#[tactic(auto, using(crate::proofs::RunEnds::drop_here, crate::proofs::RunEnds::drop_over))]
pub fn begins_with(text: &[u8], place: usize, b: u8) -> bool
    requires { place ≤ length text.now }
    ensures { result ≡ begins_with b (drop place text.now) }
{
    place < text.len() && text[place] == b
}

/// How many bytes a character has whose first byte is at least 128.
fn width(b: u8) -> usize
    ensures value { result ≡ width b }
    ensures least { 2 ≤ result }
    ensures most { result ≤ 4 }
{
    if b < 224 {
        2
    } else if b < 240 {
        3
    } else {
        4
    }
}

/// Whether a character past ASCII stands at a place, whole and well formed.
pub fn is_character(text: &[u8], place: usize) -> bool
    requires { place < length text.now }
    ensures { result ≡ is_character (slice_index text.now place) (drop (place + 1) text.now) }
{
    let width = width(text[place]);
    let (_, behind) = text.split_at(place);
    if behind.len() < width {
        return false;
    }
    let (bytes, _) = behind.split_at(width);
    match str::from_utf8(bytes) {
        Ok(_) => true,
        Err(_) => false,
    }
}

/// How many bytes of the character at a place follow its first one. None where no character stands there.
pub fn rest_of_character(text: &[u8], place: usize) -> Option<usize>
    requires { place < length text.now }
    ensures value { result ≡ rest_of_character (slice_index text.now place) (drop (place + 1) text.now) }
    ensures few { IfSome result (λ rest. rest ≤ 3) }
    ensures within { IfSome result (λ rest. place + rest + 1 ≤ length text.now) }
{
    let b = text[place];
    if b < 128 {
        Some(0)
    } else if is_character(text, place) {
        Some(width(b) - 1)
    } else {
        None
    }
}

/// The code of the character at a place, of so many further bytes.
#[tactic(auto, unfolding(crate::specs::Characters::code_at))]
pub(crate) fn code_at(text: &[u8], place: usize, rest: usize) -> u64
    requires within { place + rest + 1 ≤ length text.now }
    requires utf8 { is_utf8 (take (rest + 1) (drop place text.now)) ≡ true }
    ensures value { result ≡ code_at (take (rest + 1) (drop place text.now)) }
    ensures small { result < 2 ^ 32 }
{
    let (_, behind) = text.split_at(place);
    let (bytes, _) = behind.split_at(rest + 1);
    match str::from_utf8(bytes) {
        Ok(text) => match text.chars().next() {
            Some(c) => u64::from(u32::from(c)),
            None => 0,
        },
        Err(_) => 0,
    }
}

/// Where the text begins from a place on: a byte order mark at its start is passed over.
pub fn after_mark(text: &[u8], from: usize) -> usize
    requires { from ≤ length text.now }
    ensures start { result ≡ after_mark text.now from }
    ensures behind { from ≤ result }
    ensures within { result ≤ length text.now }
{
    if from == 0 && text.starts_with(&[0xEF, 0xBB, 0xBF]) {
        3
    } else {
        from
    }
}
