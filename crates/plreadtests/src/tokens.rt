//! Tokens (pllex).
use crate::reading::push_pieces;
use pllex::characters::{after_mark, begins_with, is_character, rest_of_character};
use pllex::clause::clause_tokens;
use pllex::digits::{is_digit, with_digit};
use pllex::error::LexError;
use pllex::escape::{Coded, escape_code};
use pllex::item::item_at;
use pllex::layout::{Gap, gap_at};
use pllex::quoted::{Quote, Quoted, is_control, mark, quoted_end};
use pllex::runs::{is_layout, run_end};
use pllex::token::{Base, Class, Fault, Kind, Scanned, Token};
use pllex::value::{has_value, value_of};
use plterm::characters::is_symbol;
use std::alloc::{AllocError, Global};
use std::test::Fail;

/// Whether tokens are of these kinds.
fn are_of(tokens: &[Token], kinds: &[Kind]) -> bool {
    for (token, kind) in tokens.iter().zip(kinds.iter()) {
        if token.kind != *kind {
            return false;
        }
    }
    tokens.len() == kinds.len()
}

/// Whether the next clause has tokens of these kinds, and ends at a place.
fn is_clause(alloc: Global, text: &[u8], kinds: &[Kind], end: usize) -> Result<bool, LexError> {
    match clause_tokens(alloc, text, 0)? {
        Some(clause) => Ok(are_of(&clause.tokens, kinds) && clause.after == end),
        None => Ok(false),
    }
}

// Layout, both comments, names, variables, integers, all punctuation and the end (6.4).
#[test]
fn tokens_of_a_clause(rt: HostRuntime) -> Result<(), Fail> {
    let text =
        b"\xEF\xBB\xBF% \xC3\xA9\nf(X, _y, 12):- /* \xE2\x82\xAC \xF0\x9F\x98\x80 */!,[b|'c']; {\"d\"}. e";
    let kinds = [
        Kind::Name,
        Kind::Open,
        Kind::Variable,
        Kind::Comma,
        Kind::Variable,
        Kind::Comma,
        Kind::Integer(12),
        Kind::Close,
        Kind::Name,
        Kind::Name,
        Kind::Comma,
        Kind::OpenSquare,
        Kind::Name,
        Kind::Bar,
        Kind::QuotedName,
        Kind::CloseSquare,
        Kind::Name,
        Kind::OpenCurly,
        Kind::DoubleQuoted,
        Kind::CloseCurly,
        Kind::End,
    ];
    assert!(rt; is_clause(rt.alloc(), text, &kinds, text.len() - 2)?);
    Ok(())
}

/// A text, the kind of its first token, and where it ends.
type FirstRow = (&'static [u8], Kind, usize);

const FIRST_TOKENS: [FirstRow; 36] = [
    (b"aB_1(.", Kind::Name, 4),
    (b"\\+a.", Kind::Name, 2),
    (b";;.", Kind::Name, 1),
    (b"!!.", Kind::Name, 1),
    (b"''.", Kind::QuotedName, 2),
    (b"'a''b'.", Kind::QuotedName, 6),
    (b"'a\"b'.", Kind::QuotedName, 5),
    (b"'a\tb'.", Kind::QuotedName, 5),
    (b"'a\\\nb'.", Kind::QuotedName, 6),
    (b"'\\x41\\\\101\\'.", Kind::QuotedName, 12),
    (b"'\xC3\xA9'.", Kind::QuotedName, 4),
    (b"'a'b.", Kind::QuotedName, 3),
    (b"\"a'b\".", Kind::DoubleQuoted, 5),
    (b"\"\"\"\".", Kind::DoubleQuoted, 4),
    (b"_.", Kind::Variable, 1),
    (b"Ab9c.", Kind::Variable, 4),
    (b"007.", Kind::Integer(7), 3),
    (b"0x1Fg.", Kind::Integer(31), 4),
    (b"0xg.", Kind::Integer(0), 1),
    (b"0o178.", Kind::Integer(15), 4),
    (b"0o8.", Kind::Integer(0), 1),
    (b"0b102.", Kind::Integer(2), 4),
    (b"0b2.", Kind::Integer(0), 1),
    (b"0x1.5.", Kind::Integer(1), 3),
    (
        b"0x8000000000000000.",
        Kind::Integer(9223372036854775808),
        18,
    ),
    (b"0'a.", Kind::Integer(97), 3),
    (b"0'''.", Kind::Integer(39), 4),
    (b"0''.", Kind::Integer(39), 3),
    (b"0'\\n.", Kind::Integer(10), 4),
    (b"0'\\x41\\.", Kind::Integer(65), 7),
    (b"0'\\101\\.", Kind::Integer(65), 7),
    (b"0' .", Kind::Integer(32), 3),
    (b"0'\".", Kind::Integer(34), 3),
    (b"0'\xE2\x82\xAC.", Kind::Integer(8364), 5),
    (
        b"9223372036854775808.",
        Kind::Integer(9223372036854775808),
        19,
    ),
    (b"1.a.", Kind::Integer(1), 1),
];

/// Whether the first token of a text is so.
fn is_first(alloc: Global, row: &FirstRow) -> Result<bool, LexError> {
    let (text, kind, end) = *row;
    match clause_tokens(alloc, text, 0)? {
        Some(clause) => Ok(matches!(
            clause.tokens.first(),
            Some(token) if token.kind == kind && token.end == end
        )),
        None => Ok(false),
    }
}

#[test]
fn first_tokens(rt: HostRuntime) -> Result<(), Fail> {
    for row in FIRST_TOKENS.iter() {
        assert!(rt; is_first(rt.alloc(), row)?, "end {}", row.2);
    }
    Ok(())
}

/// A text, its first fault, and the place.
type FaultRow = (&'static [u8], Fault, usize);

const FAULTS: [&[FaultRow]; 6] = [
    &[
        (b"a `b`.", Fault::BadCharacter, 2),
        (b"a\x00.", Fault::BadCharacter, 1),
        (b"\xC3\xA9.", Fault::BadCharacter, 0),
        (b"a\xFF.", Fault::BadUtf8, 1),
        (b"% \xC3(\na.", Fault::BadUtf8, 2),
        (b"% \xE2\x82", Fault::BadUtf8, 2),
        (b"/* \xED\xA0\x80 */a.", Fault::BadUtf8, 3),
        (b"/* \xC0\x80 ", Fault::BadUtf8, 3),
    ],
    &[
        (b"'a\xFFb'.", Fault::BadUtf8, 2),
        (b"'\xC3", Fault::BadUtf8, 1),
        (b"0'\xFF.", Fault::BadUtf8, 2),
        (b"a 'b.", Fault::OpenQuoted, 2),
        (b"\"", Fault::OpenQuoted, 0),
        (b"'a\nb'.", Fault::OpenQuoted, 0),
        (b"'a\\", Fault::OpenQuoted, 0),
        (b"'a\\x41", Fault::OpenQuoted, 0),
    ],
    &[
        (b"'a\\x\nb'.", Fault::OpenQuoted, 0),
        (b"'a''", Fault::OpenQuoted, 0),
        (b"0'", Fault::OpenQuoted, 1),
        (b"'a\x07'.", Fault::BadCharacter, 2),
        (b"'a\x7F'.", Fault::BadCharacter, 2),
        (b"'a\r\n'.", Fault::BadCharacter, 2),
        (b"0'\n.", Fault::BadCharacter, 2),
    ],
    &[
        (b"0'\x01.", Fault::BadCharacter, 2),
        (b"'a\\qb'.", Fault::BadEscape, 2),
        (b"'\\x'.", Fault::BadEscape, 1),
        (b"'\\x\\'.", Fault::BadEscape, 1),
        (b"'\\x4g\\'.", Fault::BadEscape, 1),
        (b"'\\18\\'.", Fault::BadEscape, 1),
        (b"'ab\\xD800\\'.", Fault::BadEscape, 3),
    ],
    &[
        (b"'\\x110000\\'.", Fault::BadEscape, 1),
        (b"'\\x110000", Fault::BadEscape, 1),
        (b"'a\\\xFF'.", Fault::BadEscape, 2),
        (b"0'\\q.", Fault::BadEscape, 2),
        (b"0'\\\n.", Fault::BadEscape, 2),
        (b"'\\q\x01'.", Fault::BadEscape, 1),
        (b" /* a", Fault::OpenComment, 1),
    ],
    &[
        (b"x(9223372036854775809).", Fault::IntTooBig, 2),
        (b"x(0x8000000000000001).", Fault::IntTooBig, 2),
        (b"x(1.5).", Fault::FloatLiteral, 2),
        (b"9223372036854775809.5.", Fault::FloatLiteral, 0),
        (b" a b", Fault::NoEnd, 1),
        (b"a.b", Fault::NoEnd, 0),
        (b"a, /* . */ % .", Fault::NoEnd, 0),
    ],
];

/// The place of the first row that has no such fault.
fn first_wrong(alloc: Global, rows: &[FaultRow]) -> Option<usize> {
    for (place, row) in rows.iter().enumerate() {
        let found = clause_tokens(alloc, row.0, 0).err();
        if found != Some(LexError::Bad(row.1, row.2)) {
            return Some(place);
        }
    }
    None
}

// Each fault, at its place; of several in one item, the one that is met first.
#[test]
fn faults(rt: HostRuntime) {
    for rows in FAULTS {
        assert_eq!(rt; first_wrong(rt.alloc(), rows), None);
    }
}

// Only layout is left.
#[test]
fn no_clauses(rt: HostRuntime) -> Result<(), Fail> {
    for text in [b" ".as_slice(), b"", b"% a", b"/**/\n"] {
        assert!(rt; clause_tokens(rt.alloc(), text, 0)?.is_none());
    }
    Ok(())
}

/// A text, by its pieces and how many times each stands there, and whether its name fits.
type LongRow = (&'static [(&'static [u8], usize)], bool);

const LONG_NAMES: [LongRow; 5] = [
    (&[(b"a", 65536)], false),
    (&[(b"'", 1), (b"a", 65536), (b"'", 1)], false),
    (&[(b"'", 1), (b"a", 65535), (b"'.", 1)], true),
    (&[(b"\"", 1), (b"a", 65536), (b"\".", 1)], true),
    (&[(b"a", 65535), (b".", 1)], true),
];

/// Whether a text has tokens, or a name that is too long.
fn fits(alloc: Global, text: &[u8], is: bool) -> bool {
    match clause_tokens(alloc, text, 0) {
        Ok(found) => is && found.is_some(),
        Err(error) => !is && error == LexError::Bad(Fault::NameTooLong, 0),
    }
}

/// Whether that is so of the text of a row.
fn is_long(alloc: Global, row: &LongRow) -> Result<bool, AllocError> {
    let mut text = Vec::new(alloc);
    push_pieces(&mut text, row.0)?;
    Ok(fits(alloc, &text, row.1))
}

// A name, and a quoted name's value, have at most 65,535 bytes; a double-quoted item's value has any number.
#[test]
fn long_names(rt: HostRuntime) -> Result<(), Fail> {
    for row in LONG_NAMES.iter() {
        assert!(rt; is_long(rt.alloc(), row)?);
    }
    Ok(())
}

/// A text, and the value of its first token.
type ValueRow = (&'static [u8], &'static str);

const VALUES: [ValueRow; 14] = [
    (b"ab_1.", "ab_1"),
    (b"Xy.", "Xy"),
    (b"''.", ""),
    (b"'a''b'.", "a'b"),
    (b"'a\"\"b'.", "a\"\"b"),
    (b"\"a\"\"b''\".", "a\"b''"),
    (b"'\\\\\\'\\\"\\`'.", "\\'\"`"),
    (b"'\\a\\b\\f\\n\\r\\t\\v'.", "\x07\x08\x0C\n\r\t\x0B"),
    (b"'\\x41\\b\\101\\'.", "AbA"),
    (b"'\\xE9\\\\x20ac\\'.", "\u{E9}\u{20AC}"),
    (b"'\\x1F600\\'.", "\u{1F600}"),
    (b"'a\\\nb'.", "ab"),
    (
        b"'\xC3\xA9\xE2\x82\xAC\xF0\x9F\x98\x80'.",
        "\u{E9}\u{20AC}\u{1F600}",
    ),
    (b"'a\tb'.", "a\tb"),
];

/// Whether the first token of a text has this value.
fn is_value(alloc: Global, row: &ValueRow) -> Result<bool, LexError> {
    let (text, wanted) = *row;
    match clause_tokens(alloc, text, 0)? {
        Some(clause) => match clause.tokens.first() {
            Some(token) if has_value(token.kind) => {
                let value = value_of(alloc, text, token)?;
                Ok(value.as_str() == wanted)
            }
            _ => Ok(false),
        },
        None => Ok(false),
    }
}

// Escape sequences, doubled quotes and characters past ASCII in values.
#[test]
fn values(rt: HostRuntime) -> Result<(), Fail> {
    for row in VALUES.iter() {
        assert!(rt; is_value(rt.alloc(), row)?, "{}", row.1);
    }
    Ok(())
}

/// Bytes, whether they are symbol characters (6.5.1), layout (6.5.4), and control characters of a quoted item.
const BYTES: [(u8, bool, bool, bool); 8] = [
    (b'+', true, false, false),
    (b'\\', true, false, false),
    (b';', false, false, false),
    (b'a', false, false, false),
    (b' ', false, true, false),
    (b'\n', false, true, false),
    (7, false, false, true),
    (127, false, false, true),
];

// What a byte is, and the marks of quoted items.
#[test]
fn bytes(rt: HostRuntime) {
    for (b, symbol, layout, control) in BYTES {
        let is = (is_symbol(b), is_layout(b), is_control(b));
        assert!(rt; is == (symbol, layout, control), "{b}");
    }
    assert!(rt; mark(Quote::Single) == b'\'' && mark(Quote::Double) == b'"');
}

/// Bytes, and whether they are digits of a base.
const DIGITS: [(Base, u8, bool); 6] = [
    (Base::Binary, b'1', true),
    (Base::Binary, b'2', false),
    (Base::Octal, b'8', false),
    (Base::Decimal, b'9', true),
    (Base::Hexadecimal, b'f', true),
    (Base::Hexadecimal, b'g', false),
];

// Digits of each base, and a number with one more of them, up to a limit.
#[test]
fn digits(rt: HostRuntime) {
    for (base, b, is) in DIGITS {
        assert!(rt; is_digit(base, b) == is, "{b}");
    }
    assert!(rt;
        with_digit(Base::Decimal, 12, b'3', 123) == Some(123)
            && with_digit(Base::Decimal, 12, b'3', 122).is_none()
            && with_digit(Base::Hexadecimal, 1, b'F', 255) == Some(31)
    );
}

// What stands at the start of a text: a mark, a character past ASCII, layout, a run, an item.
#[test]
fn starts(rt: HostRuntime) {
    assert!(rt;
        begins_with(b"ab", 0, b'a')
            && !begins_with(b"ab", 0, b'b')
            && after_mark(b"\xEF\xBB\xBFa", 0) == 3
            && is_character(b"\xC3\xA9", 0)
            && !is_character(b"\xC3", 0)
            && rest_of_character(b"\xE2\x82\xAC", 0) == Some(2)
            && run_end(b"ab_1(", 0, Class::Alphanumeric) == 4
    );
    assert!(rt;
        matches!(gap_at(b" % c\na", 0), Gap::Before(5))
            && matches!(gap_at(b" /* a", 0), Gap::Unclosed(1))
            && matches!(escape_code(b"x41\\b", 0), Coded::Character('A', 4))
            && matches!(quoted_end(b"'a''b'.", 0, Quote::Single), Quoted::Closed(6))
    );
    let item = item_at(b"Ab(", 0);
    assert!(rt;
        matches!(item, Scanned::Token(token) if token.kind == Kind::Variable && token.end == 2)
    );
}
