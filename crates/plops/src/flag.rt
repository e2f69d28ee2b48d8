//! The flag double_quotes.

/// What a double-quoted item is (7.11.2.5): a list of codes, a list of one-character atoms, or an atom.
#[derive(Clone, Copy, Debug, PartialEq, Eq)]
pub enum Quotes {
    Codes,
    Chars,
    Atom,
}
