//! Terms from tokens (plread).
use crate::made::shape;
use pllex::clause::clause_tokens;
use plops::flag::Quotes;
use plops::table::OpTable;
use plread::clause::term_of;
use plread::error::ReadError;
use plread::input::Input;
use plread::read::read_clause;
use plread::token::Token;
use plread::words::Words;
use plterm::name::Name;
use plterm::term::Term;
use std::alloc::{AllocError, Global};
use std::string::String;
use std::test::Fail;

/// The first clause of a text under these operators; None where no tokens are found.
fn read_under(
    alloc: Global,
    operators: &OpTable,
    text: &[u8],
    levels: u64,
) -> Result<Option<Term>, ReadError> {
    match clause_tokens(alloc, text, 0) {
        Ok(Some(found)) => {
            let read = read_clause(alloc, text, &found.tokens, operators, Quotes::Codes, levels)?;
            Ok(Some(read.term))
        }
        _ => Ok(None),
    }
}

/// The same under the standard operators.
fn read(alloc: Global, text: &[u8], levels: u64) -> Result<Option<Term>, ReadError> {
    let operators = OpTable::iso(alloc)?;
    read_under(alloc, &operators, text, levels)
}

/// Whether a term has these nodes in prefix order.
pub fn has_shape(alloc: Global, term: &Term, wanted: &str) -> Result<bool, Fail> {
    let found = shape(alloc, term)?;
    Ok(found.as_str() == wanted)
}

/// A clause, and its nodes in prefix order.
type ClauseRow = (&'static [u8], &'static str);

/// Facts, functional notation, rules and directives (6.3).
const CLAUSES: [ClauseRow; 7] = [
    (b"a:-b,c.", ":-/2 a ,/2 b c"),
    (b":-(a,(b,c)) .", ":-/2 a ,/2 b c"),
    (b"-->(a,b).", "-->/2 a b"),
    (b":-a.", ":-/1 a"),
    (b"f(X,_):-f(X,_).", ":-/2 f/2 _0 _1 f/2 _0 _2"),
    (b"x(9223372036854775807).", "x/1 9223372036854775807"),
    (b"(:-).", ":-"),
];

/// Whether a text is read as the term of these nodes.
fn is_read(alloc: Global, row: &ClauseRow) -> Result<bool, Fail> {
    match read(alloc, row.0, 65536)? {
        Some(term) => has_shape(alloc, &term, row.1),
        None => Ok(false),
    }
}

#[test]
fn reads(rt: HostRuntime) -> Result<(), Fail> {
    for row in CLAUSES.iter() {
        assert!(rt; is_read(rt.alloc(), row)?, "{}", row.1);
    }
    Ok(())
}

/// What spells no term.
const REFUSED: [&[&[u8]]; 2] = [
    &[
        b" f(a,).",
        b" x(9223372036854775808).",
        b" a b.",
        b" f (a).",
        b" a:-b:-c.",
        b" f(:-a).",
    ],
    &[b" f(a:-b).", b" (a.", b" a).", b" ,.", b" .", b" f()."],
];

/// Whether a text is refused at a place.
fn is_refused(alloc: Global, text: &[u8], levels: u64, place: usize) -> bool {
    read(alloc, text, levels).err() == Some(ReadError::Syntax(place))
}

/// The place of the first text that is not refused at its first token.
fn first_not_refused(alloc: Global, texts: &[&[u8]]) -> Option<usize> {
    for (place, text) in texts.iter().enumerate() {
        if !is_refused(alloc, text, 65536, 1) {
            return Some(place);
        }
    }
    None
}

#[test]
fn refuses(rt: HostRuntime) {
    for texts in REFUSED {
        assert_eq!(rt; first_not_refused(rt.alloc(), texts), None);
    }
}

/// The pieces of a text, each with how many times it stands there, the levels, and whether it is read; it is refused at its
/// start where it is not.
type LongRow = (&'static [(&'static [u8], usize)], u64, bool);

/// 65,536 levels are those of the brackets and that of the argument; a compound has at most 1,024 arguments.
const LONG: [LongRow; 4] = [
    (
        &[
            (b"f(", 1),
            (b"(", 65535),
            (b"a", 1),
            (b")", 65535),
            (b").", 1),
        ],
        65536,
        true,
    ),
    (
        &[
            (b"f(", 1),
            (b"(", 65536),
            (b"a", 1),
            (b")", 65536),
            (b").", 1),
        ],
        65536,
        false,
    ),
    (&[(b"f(a", 1), (b",a", 1023), (b").", 1)], 1, true),
    (&[(b"f(a", 1), (b",a", 1024), (b").", 1)], 1, false),
];

/// Adds a piece so many times.
fn push_times(text: &mut Vec<u8>, piece: &[u8], count: usize) -> Result<(), AllocError> {
    for _ in 0..count {
        text.extend_from_slice(piece)?;
    }
    Ok(())
}

/// Adds all pieces, each so many times.
pub fn push_pieces(text: &mut Vec<u8>, pieces: &[(&[u8], usize)]) -> Result<(), AllocError> {
    for (piece, count) in pieces.iter() {
        push_times(text, piece, *count)?;
    }
    Ok(())
}

/// Whether a text is read, or refused, as its row tells.
fn is_as_told(alloc: Global, text: &[u8], row: &LongRow) -> Result<bool, ReadError> {
    let (_, levels, is) = *row;
    if is {
        return Ok(read(alloc, text, levels)?.is_some());
    }
    Ok(is_refused(alloc, text, levels, 0))
}

/// Whether the text of a row is.
fn is_long(alloc: Global, row: &LongRow) -> Result<bool, ReadError> {
    let mut text = Vec::new(alloc);
    push_pieces(&mut text, row.0)?;
    is_as_told(alloc, &text, row)
}

#[test]
fn levels_and_arities(rt: HostRuntime) -> Result<(), Fail> {
    for row in LONG.iter() {
        assert!(rt; is_long(rt.alloc(), row)?, "{} levels", row.1);
    }
    Ok(())
}

fn named(alloc: Global, words: &mut Words, text: &str, bare: bool) -> Result<Token, AllocError> {
    if text.len() > 65535 {
        return Err(AllocError);
    }
    let place = words.push(Name::new(alloc, text)?)?;
    Ok(Token::Name(place, bare))
}

fn text_of(alloc: Global, words: &mut Words, piece: &str) -> Result<usize, AllocError> {
    words.push_text(String::from_str(alloc, piece)?)
}

fn word(alloc: Global, words: &mut Words, piece: &str, joined: bool) -> Result<Token, AllocError> {
    match piece.as_bytes() {
        [b'\'', ..] => named(alloc, words, piece.trim_matches('\''), false),
        [b'"', ..] => Ok(Token::Codes(text_of(alloc, words, piece.trim_matches('"'))?)),
        [b'`', ..] => Ok(Token::Chars(text_of(alloc, words, piece.trim_matches('`'))?)),
        [b'0'..=b'9', ..] => Ok(Token::Integer(piece.parse().unwrap_or(0), joined)),
        [b'X'] => Ok(Token::Variable(0)),
        [b'Y'] => Ok(Token::Variable(1)),
        _ => named(alloc, words, piece, true),
    }
}

fn token(alloc: Global, words: &mut Words, piece: &str, joined: bool) -> Result<Token, AllocError> {
    match piece.as_bytes() {
        [b'('] if joined => Ok(Token::OpenCall),
        [b'('] => Ok(Token::Open),
        [b')'] => Ok(Token::Close),
        [b'['] => Ok(Token::OpenSquare),
        [b']'] => Ok(Token::CloseSquare),
        [b'{'] => Ok(Token::OpenCurly),
        [b'}'] => Ok(Token::CloseCurly),
        [b','] => Ok(Token::Comma),
        [b'|'] => Ok(Token::Bar),
        [b'.'] => Ok(Token::End),
        _ => word(alloc, words, piece, joined),
    }
}

/// Adds the tokens of pieces with a space between them.
fn push_tokens(alloc: Global, input: &mut Input<'_>, pieces: &str) -> Result<(), AllocError> {
    let mut joined = false;
    for piece in pieces.split(' ') {
        if !piece.is_empty() {
            let token = token(alloc, &mut input.words, piece, joined)?;
            input.tokens.push(token)?;
        }
        joined = !piece.is_empty();
    }
    Ok(())
}

fn new_input(alloc: Global) -> Result<Input<'static>, AllocError> {
    Ok(Input {
        words: Words::new(alloc)?,
        tokens: Vec::new(alloc),
        names: Vec::new(alloc),
    })
}

/// The tokens of pieces with a space between them, each directly behind the one before it but for two spaces. A text
/// in `"` is a list of codes, and one in backquotes a list of characters.
pub fn input(alloc: Global, pieces: &str) -> Result<Input<'static>, AllocError> {
    let mut input = new_input(alloc)?;
    push_tokens(alloc, &mut input, pieces)?;
    Ok(input)
}

/// Pieces, the least number of levels, and the nodes in prefix order; `none` where they spell no term, with so many levels.
type FormRow = (&'static str, u64, &'static str);

const FORMS: [&[FormRow]; 9] = [
    &[
        ("a .", 0, "a"),
        ("'a' .", 0, "a"),
        ("9223372036854775807 .", 0, "9223372036854775807"),
        ("- 1 .", 0, "-1"),
        ("- 0 .", 0, "0"),
        ("- 9223372036854775808 .", 0, "-9223372036854775808"),
        ("[ ] .", 0, "[]"),
        ("{ } .", 0, "{}"),
    ],
    &[
        ("\"\" .", 0, "[]"),
        ("\"aé\" .", 0, "./2 97 ./2 233 []"),
        ("`é` .", 0, "./2 é []"),
        ("( a ) .", 1, "a"),
        ("f ( X , Y , X ) .", 1, "f/3 _0 _1 _0"),
        ("'[]' ( a ) .", 1, "[]/1 a"),
        ("- ( 1 ) .", 1, "-/1 1"),
        ("f ( - ) .", 1, "f/1 -"),
    ],
    &[
        ("x ( '-' ) .", 1, "x/1 -"),
        ("f ( - 1 ) .", 1, "f/1 -1"),
        ("[ a ] .", 1, "./2 a []"),
        ("[ a , b ] .", 1, "./2 a ./2 b []"),
        ("[ a | b ] .", 1, "./2 a b"),
        ("[ a , b | X ] .", 1, "./2 a ./2 b _0"),
        ("[ :- | :- ] .", 1, "./2 :- :-"),
        (
            "[ [ a ] , [ ] | [ b ] ] .",
            2,
            "./2 ./2 a [] ./2 [] ./2 b []",
        ),
    ],
    &[
        ("{ a } .", 1, "{}/1 a"),
        ("{ a , b } .", 2, "{}/1 ,/2 a b"),
        ("{ a :- b } .", 2, "{}/1 :-/2 a b"),
        ("[ ( a :- b ) ] .", 3, "./2 :-/2 a b []"),
        ("[ { [ a ] } ] .", 3, "./2 {}/1 ./2 a [] []"),
        (":- a .", 1, ":-/1 a"),
        (":-  ( a ) .", 2, ":-/1 a"),
        (":- ( a ) .", 1, ":-/1 a"),
    ],
    &[
        (":- [ a ] .", 2, ":-/1 ./2 a []"),
        (":- \"a\" .", 1, ":-/1 ./2 97 []"),
        ("a :- b , c .", 2, ":-/2 a ,/2 b c"),
        ("a ':-' b .", 1, ":-/2 a b"),
        ("( a ',' b ) .", 2, ",/2 a b"),
        ("f ( ',' ) .", 1, "f/1 ,"),
        ("f ( :- , ( a :- b ) ) .", 3, "f/2 :- :-/2 a b"),
        ("( :- ) .", 1, ":-"),
    ],
    &[(":- ( a , b ) .", 1, ":-/2 a b")],
    &[
        ("9223372036854775808 .", 65536, "none"),
        (":- 9223372036854775808 .", 65536, "none"),
        ("( a | b ) .", 65536, "none"),
        ("[ | a ] .", 65536, "none"),
        ("[ a | b | c ] .", 65536, "none"),
        ("[ a | b , c ] .", 65536, "none"),
        ("[ a , ] .", 65536, "none"),
        ("[ a :- b ] .", 65536, "none"),
    ],
    &[
        ("[ :- a ] .", 65536, "none"),
        ("[ a | b :- c ] .", 65536, "none"),
        ("[ a .", 65536, "none"),
        ("( a ] .", 65536, "none"),
        ("{ a .", 65536, "none"),
        ("{ a ] .", 65536, "none"),
        ("[ ] ( a ) .", 65536, "none"),
        ("{ } ( a ) .", 65536, "none"),
    ],
    &[
        ("X ( a ) .", 65536, "none"),
        ("f  ( a ) .", 65536, "none"),
        ("f ( ) .", 65536, "none"),
        ("f ( a ',' b ) .", 65536, "none"),
        ("a b .", 65536, "none"),
        ("a :- b :- c .", 65536, "none"),
        ("a . .", 65536, "none"),
        (".", 65536, "none"),
    ],
];

/// Whether tokens spell no term with so many levels.
fn is_no_form(
    alloc: Global,
    operators: &OpTable,
    input: &Input<'_>,
    levels: u64,
) -> Result<bool, AllocError> {
    let term = term_of(alloc, &input.words, &input.tokens, operators, levels)?;
    Ok(term.is_none())
}

/// Whether tokens spell the term of the nodes of a row with its levels.
fn is_form(
    alloc: Global,
    operators: &OpTable,
    input: &Input<'_>,
    row: &FormRow,
) -> Result<bool, Fail> {
    match term_of(alloc, &input.words, &input.tokens, operators, row.1)? {
        Some(term) => has_shape(alloc, &term, row.2),
        None => Ok(row.2 == "none"),
    }
}

/// Whether pieces spell the term of these nodes with so many levels, and none with one level less.
fn is_row(alloc: Global, operators: &OpTable, row: &FormRow) -> Result<bool, Fail> {
    let (pieces, levels, _) = *row;
    let input = input(alloc, pieces)?;
    Ok(
        is_form(alloc, operators, &input, row)?
            && (levels == 0 || is_no_form(alloc, operators, &input, levels - 1)?),
    )
}

/// The first pieces of which that is not so.
fn first_wrong(
    alloc: Global,
    operators: &OpTable,
    rows: &[FormRow],
) -> Result<Option<&'static str>, Fail> {
    for row in rows.iter() {
        if !is_row(alloc, operators, row)? {
            return Ok(Some(row.0));
        }
    }
    Ok(None)
}

/// The same under the standard operators.
fn first_wrong_of_iso(alloc: Global, rows: &[FormRow]) -> Result<Option<&'static str>, Fail> {
    let operators = OpTable::iso(alloc)?;
    first_wrong(alloc, &operators, rows)
}

// Each form of term, by its nodes in prefix order; the least number of levels; and no term with one level less (6.3).
#[test]
fn forms(rt: HostRuntime) -> Result<(), Fail> {
    for rows in FORMS {
        assert_eq!(rt; first_wrong_of_iso(rt.alloc(), rows)?, None);
    }
    Ok(())
}

/// Whether the text and the name at a place are these.
fn is_name(alloc: Global, words: &Words, place: usize, name: &str) -> Result<bool, AllocError> {
    let found = words.name(alloc, place)?;
    Ok(words.text(place) == name && found.as_str() == name)
}

/// Whether the names of punctuation have their places, and none stands behind them.
fn are_first(alloc: Global, words: &Words) -> Result<bool, AllocError> {
    Ok(
        is_name(alloc, words, words.comma(), ",")?
            && is_name(alloc, words, words.dot(), ".")?
            && is_name(alloc, words, words.nil(), "[]")?
            && is_name(alloc, words, words.curly(), "{}")?
            && is_name(alloc, words, 9, "")?,
    )
}

/// Whether a text stands at the place that it is given.
fn is_text(alloc: Global, words: &mut Words, text: &str) -> Result<bool, AllocError> {
    let place = text_of(alloc, words, text)?;
    Ok(words.quoted(place) == text)
}

// The names of punctuation stand first among the words; a text has a place of its own.
#[test]
fn words(rt: HostRuntime) -> Result<(), Fail> {
    let mut words = Words::new(rt.alloc())?;
    assert!(rt; are_first(rt.alloc(), &words)? && is_text(rt.alloc(), &mut words, "ab")?);
    Ok(())
}
