//! Tokens as the reader takes them.

/// A token of a clause: a name by its place among the clause's names, a variable by its number, a double-quoted item
/// as the term that it is, and a bracket and an integer by what stands before it.
#[derive(Clone, Copy, Debug, PartialEq, Eq)]
pub enum Token {
    /// A name, and whether it stands without quotes.
    Name(usize, bool),
    Variable(u64),
    /// An integer, and whether it stands directly behind the token before it.
    Integer(u64, bool),
    /// A text by its place among the clause's texts, as the list of its characters' codes.
    Codes(usize),
    /// A text, as the list of its characters as atoms.
    Chars(usize),
    /// An atom in double quotes, by its place among the clause's names.
    Atom(usize),
    /// A text in double quotes that is too long to be an atom.
    TooLong,
    /// An opening bracket behind layout, or at the start.
    Open,
    /// An opening bracket directly behind the token before it.
    OpenCall,
    Close,
    OpenSquare,
    CloseSquare,
    OpenCurly,
    CloseCurly,
    Comma,
    Bar,
    End,
}
