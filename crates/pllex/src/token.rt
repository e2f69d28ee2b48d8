//! Tokens, and what else can stand in a text.

/// What a token is (6.4). A `Name` is written without quotes. The value of an integer is at most 2^63.
#[derive(Clone, Copy, Debug, PartialEq, Eq)]
pub enum Kind {
    Name,
    QuotedName,
    Variable,
    Integer(u64),
    DoubleQuoted,
    Open,
    Close,
    OpenSquare,
    CloseSquare,
    OpenCurly,
    CloseCurly,
    Comma,
    Bar,
    End,
}

/// A token, and the places in the text at which it starts and ends.
#[derive(Clone, Copy, Debug, PartialEq, Eq)]
pub struct Token {
    pub kind: Kind,
    pub start: usize,
    pub end: usize,
}

/// Why no token stands at a place of a text. Of several faults of one token it is the one that is met first,
/// from the left.
#[derive(Clone, Copy, Debug, PartialEq, Eq)]
pub enum Fault {
    /// Bytes that are no UTF-8. The place is that of the first bad byte.
    BadUtf8,
    /// A character that begins no token, or a control character in a quoted item. The place is its own.
    BadCharacter,
    /// A line or the text ends in a quoted item. The place is that of the opening quote.
    OpenQuoted,
    /// An escape that is none, or that of a code which is no character. The place is that of its backslash.
    BadEscape,
    /// An integer above 2^63. The place is that of its first digit.
    IntTooBig,
    /// Digits, a full stop and a digit. The place is that of the first digit.
    FloatLiteral,
    /// A name, a variable or a quoted name's value of more than 65,535 bytes. The place is its start.
    NameTooLong,
    /// A bracketed comment that is not closed. The place is its start.
    OpenComment,
    /// The text ends before an end token. The place is that of the clause's first token.
    NoEnd,
}

/// What stands at a place: a token, a fault with its place, or the end of the text.
#[derive(Clone, Copy, Debug, PartialEq, Eq)]
pub enum Scanned {
    Token(Token),
    Fault(Fault, usize),
    Nothing,
}

/// The base in which the digits of an integer or of a code count.
#[derive(Clone, Copy, Debug, PartialEq, Eq)]
pub enum Base {
    Binary,
    Octal,
    Decimal,
    Hexadecimal,
}

/// A class of characters of which a run is one token.
#[derive(Clone, Copy, Debug, PartialEq, Eq)]
pub enum Class {
    Alphanumeric,
    Symbol,
    Digit(Base),
}
