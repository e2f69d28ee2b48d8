//! Styles of writing.
ghost use Rattle.std.specs.Prelude.{◌≡◌};
ghost use Rattle.plwrite.specs.Styles.{has_letters};

/// How a term is written: whether its names are quoted where they are not read back otherwise, whether operators are
/// used, and whether `'$VAR'(N)` is written as a variable (ISO/IEC 13211-1 7.10.5).
#[derive(Clone, Copy, Debug, PartialEq, Eq)]
pub enum Style {
    /// As by write/1: nothing is quoted, with operators and variables by `'$VAR'(N)` (8.14.2.5).
    Plain,
    /// As by writeq/1: quoted, with operators and variables by `'$VAR'(N)`.
    Quoted,
    /// As by write_canonical/1: quoted, without operators.
    Canonical,
    /// As clauses are listed: quoted, with operators.
    Listed,
}

impl Style {
    /// Whether `'$VAR'(N)` is written as a variable.
    pub fn has_letters(self) -> bool
        ensures { result ≡ has_letters self }
    {
        match self {
            Style::Plain | Style::Quoted => true,
            Style::Canonical | Style::Listed => false,
        }
    }
}
