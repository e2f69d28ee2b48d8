//! Places in texts.
ghost use Rattle.std.specs.Prelude.{◌≡◌, ◌≤◌, ◌<◌, suc, length, take, drop};
ghost use Rattle.std.specs.Str.{chars, encode_utf8_all};
ghost use Rattle.plgenerator.specs.Turns.{IsOffset};

use crate::turn::Offset;

/// The first so many characters of a text, and the others.
pub(crate) fn divided(text: &str, count: u16) -> (&str, &str)
    requires { count ≤ length (chars text.now) }
    ensures front { result.0.now ≡ encode_utf8_all (take count (chars text.now)) }
    ensures back { result.1.now ≡ encode_utf8_all (drop count (chars text.now)) }
{
    let mut rest = text.chars();
    for _ in 0..count {
        let _passed = rest.next();
    }
    let behind = rest.as_str().len();
    text.split_at(text.len() - behind)
}

/// What stands behind a place.
pub(crate) fn behind(text: &str, offset: Offset) -> &str
    requires { IsOffset (chars text.now) offset }
    ensures { result.now ≡ encode_utf8_all (drop offset.characters (chars text.now)) }
{
    text.split_at(offset.bytes as usize).1
}

/// The place behind the next character.
pub(crate) fn next_offset(text: &str, offset: Offset) -> Offset
    requires name { length text.now ≤ 65535 }
    requires offset { IsOffset (chars text.now) offset }
    requires more { offset.characters < length (chars text.now) }
    ensures offset { IsOffset (chars text.now) result }
    ensures is { result.characters ≡ suc offset.characters }
{
    let mut rest = behind(text, offset).chars();
    let _passed = rest.next();
    let bytes = text.len() - rest.as_str().len();
    Offset {
        characters: offset.characters + 1,
        bytes: bytes as u16,
    }
}
