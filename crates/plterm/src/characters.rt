//! The characters of names (ISO/IEC 13211-1 6.5).
ghost use Rattle.std.specs.Prelude.{◌≡◌};
ghost use Rattle.plterm.specs.Characters.{is_alphanumeric, is_symbol};

/// Whether it is an ASCII letter, a digit or `_` (6.5.2).
pub fn is_alphanumeric(b: u8) -> bool
    ensures { result ≡ is_alphanumeric b }
{
    b.is_ascii_alphanumeric() || b == b'_'
}

/// Whether it is a symbol character: a graphic character or the backslash (6.4.2, 6.5.1).
pub fn is_symbol(b: u8) -> bool
    ensures { result ≡ is_symbol b }
{
    match b {
        b'+'
        | b'-'
        | b'*'
        | b'/'
        | b'\\'
        | b'^'
        | b'<'
        | b'>'
        | b'='
        | b'~'
        | b':'
        | b'.'
        | b'?'
        | b'@'
        | b'#'
        | b'&'
        | b'$' => true,
        _ => false,
    }
}
