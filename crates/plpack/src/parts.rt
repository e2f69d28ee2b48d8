//! Numbers and names at the front of bytes.
ghost use Rattle.std.specs.Prelude.{◌<◌, length, MatchOption};
ghost use Rattle.std.specs.Int.{w16, w64};
ghost use Rattle.plpack.specs.Items.{IsNameAt, IsNumberAt, NoName};

use std::str;

/// The number of eight bytes, and the bytes behind it.
pub fn long_of(bytes: &[u8]) -> Option<(u64, &[u8])>
    ensures { MatchOption result (length bytes.now < 8) (λ p. IsNumberAt w64 bytes.now p.0 p.1.now) }
{
    let (front, after) = bytes.split_first_chunk::<8>()?;
    Some((u64::from_be_bytes(*front), after))
}

/// The number of two bytes, and the bytes behind it.
pub fn short_of(bytes: &[u8]) -> Option<(u16, &[u8])>
    ensures { MatchOption result (length bytes.now < 2) (λ p. IsNumberAt w16 bytes.now p.0 p.1.now) }
{
    let (front, after) = bytes.split_first_chunk::<2>()?;
    Some((u16::from_be_bytes(*front), after))
}

/// The name behind its length, and the bytes behind it.
pub fn name_of(bytes: &[u8]) -> Option<(&str, &[u8])>
    ensures { MatchOption result (NoName bytes.now) (λ p. IsNameAt bytes.now p.0.now p.1.now) }
{
    let (count, rest) = short_of(bytes)?;
    let (front, after) = rest.split_at_checked(count as usize)?;
    let Ok(text) = str::from_utf8(front) else {
        return None;
    };
    Some((text, after))
}
