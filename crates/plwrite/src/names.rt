//! The spelling of names (ISO/IEC 13211-1 6.4.2).
ghost use Rattle.std.specs.Prelude.{◌≡◌, ◌++◌, ◌∷◌, ◌<◌, IfOk, OnOk};
ghost use Rattle.std.specs.List.{list_all};
ghost use Rattle.plterm.specs.Characters.{is_alphanumeric, is_symbol};
ghost use Rattle.plwrite.specs.Names.{is_solo, is_small, is_symbolic, is_bare, hex_digit, hex, escaped, quoted, is_empty_brackets};

use plterm::characters::{is_alphanumeric, is_symbol};
use std::alloc::{AllocError, Global};

fn is_solo(name: &str) -> bool
    ensures { result ≡ is_solo name.now }
{
    name == "[]" || name == "{}" || name == "!" || name == ";"
}

/// Whether it is `[]` or `{}`.
pub fn is_empty_brackets(name: &str) -> bool
    ensures { result ≡ is_empty_brackets name.now }
{
    name == "[]" || name == "{}"
}

fn all_alphanumeric(bytes: &[u8]) -> bool
    ensures { result ≡ list_all is_alphanumeric bytes.now }
{
    bytes.iter().all(|b| is_alphanumeric(*b))
}

fn all_symbols(bytes: &[u8]) -> bool
    ensures { result ≡ list_all is_symbol bytes.now }
{
    bytes.iter().all(|b| is_symbol(*b))
}

fn is_small(name: &[u8]) -> bool
    ensures { result ≡ is_small name.now }
{
    match name {
        [] => false,
        [first, others @ ..] => first.is_ascii_lowercase() && all_alphanumeric(others),
    }
}

fn is_symbolic(name: &str) -> bool
    ensures { result ≡ is_symbolic name.now }
{
    let bytes = name.as_bytes();
    (all_symbols(bytes) && !name.is_empty())
        && (name != "." && !bytes.starts_with(b"/*".as_slice()))
}

/// Whether the name is read back from its own characters.
pub fn is_bare(name: &str) -> bool
    ensures { result ≡ is_bare name.now }
{
    is_solo(name) || is_small(name.as_bytes()) || is_symbolic(name)
}

fn hex_digit(digit: u8) -> u8
    requires { digit < 16 }
    ensures { result ≡ hex_digit digit }
{
    if digit < 10 {
        b'0' + digit
    } else {
        b'a' - 10 + digit
    }
}

fn push_hex(text: &mut Vec<u8>, b: u8) -> Result<(), AllocError>
    ensures { OnOk result (text.new.items ≡ text.old.items ++ hex b) }
{
    if b >= 16 {
        text.push(hex_digit(b / 16))?;
        text.push(hex_digit(b % 16))?;
    } else {
        text.push(hex_digit(b))?;
    }
    Ok(())
}

fn push_escaped(text: &mut Vec<u8>, b: u8) -> Result<(), AllocError>
    ensures { OnOk result (text.new.items ≡ text.old.items ++ escaped b) }
{
    match b {
        b'\\' => text.extend_from_slice(b"\\\\"),
        b'\'' => text.extend_from_slice(b"\\'"),
        7 => text.extend_from_slice(b"\\a"),
        8 => text.extend_from_slice(b"\\b"),
        9 => text.extend_from_slice(b"\\t"),
        10 => text.extend_from_slice(b"\\n"),
        11 => text.extend_from_slice(b"\\v"),
        12 => text.extend_from_slice(b"\\f"),
        13 => text.extend_from_slice(b"\\r"),
        0..=31 | 127 => {
            text.extend_from_slice(b"\\x")?;
            push_hex(text, b)?;
            text.extend_from_slice(b"\\")
        }
        _ => text.extend_from_slice(&[b]),
    }
}

/// The name in quotes, with its escapes.
pub fn quoted(alloc: Global, name: &[u8]) -> Result<Vec<u8>, AllocError>
    ensures { IfOk result (λ v. v.items ≡ quoted name.now) }
{
    let mut text = Vec::from_slice(alloc, b"'")?;
    for b in name {
        push_escaped(&mut text, *b)?;
    }
    text.push(b'\'')?;
    Ok(text)
}
