//! What stands in operand position, and what extends an operand (plread).
use crate::reading::input;
use plops::operator::Kind;
use plops::table::OpTable;
use plread::input::Input;
use plread::looks::{Follower, Leaf, Opening, negative, next_of, start_of};
use plread::token::Token;
use plread::words::Words;
use std::alloc::{AllocError, Global};
use std::fmt::Write;
use std::string::String;
use std::test::Fail;

/// What is looked for in pieces.
enum Looked {
    /// What begins them where a priority of at most this one fits (6.3.1 to 6.3.6).
    Start(u16),
    /// What extends an operand of the second priority, where the whole may have at most the first (6.3.4.2).
    Next(u16, u16),
}

/// Pieces, what is looked for in them, and what is found, with how many tokens stand behind it.
type Row = (&'static str, Looked, &'static str);

const LOOKS: [&[Row]; 7] = [
    &[
        ("X .", Looked::Start(0), "variable 0, 1"),
        ("5 .", Looked::Start(0), "5, 1"),
        ("9223372036854775808 .", Looked::Start(1200), "nothing, 0"),
        ("- 1 .", Looked::Start(0), "-1, 1"),
        (
            "- 9223372036854775808 .",
            Looked::Start(0),
            "-9223372036854775808, 1",
        ),
        ("- 9223372036854775809 .", Looked::Start(1200), "nothing, 0"),
    ],
    &[
        // A sign stands directly before its integer, and without quotes.
        ("-  1 .", Looked::Start(1200), "- 200 before 200, 2"),
        ("'-' 1 .", Looked::Start(1200), "- 200 before 200, 2"),
        ("+ 1 .", Looked::Start(1200), "atom +, 2"),
        ("a .", Looked::Start(0), "atom a, 1"),
        ("\"ab\" .", Looked::Start(0), "codes of ab, 1"),
        ("`ab` .", Looked::Start(0), "characters of ab, 1"),
        ("f ( a ) .", Looked::Start(0), "call of f, 3"),
    ],
    &[
        ("- ( a ) .", Looked::Start(0), "call of -, 3"),
        ("( a ) .", Looked::Start(0), "bracket, 3"),
        ("[ ] .", Looked::Start(0), "atom [], 1"),
        ("[ a ] .", Looked::Start(0), "list, 3"),
        ("{ } .", Looked::Start(0), "atom {}, 1"),
        ("{ a } .", Looked::Start(0), "braces, 3"),
    ],
    &[
        // A prefix operator is an atom where no term begins behind it.
        ("- .", Looked::Start(0), "atom -, 1"),
        ("- = a .", Looked::Start(0), "atom -, 3"),
        (":- a .", Looked::Start(1200), ":- 1200 before 1199, 2"),
        (":- a .", Looked::Start(1199), "nothing, 0"),
        (") .", Looked::Start(1200), "nothing, 0"),
        (", a .", Looked::Start(1200), "nothing, 0"),
        (".", Looked::Start(1200), "nothing, 0"),
    ],
    &[
        ("= b .", Looked::Next(700, 699), "= 700 between 699 699, 2"),
        ("= b .", Looked::Next(699, 0), "stop"),
        ("= b .", Looked::Next(1200, 700), "stop"),
        ("'=' b .", Looked::Next(700, 0), "= 700 between 699 699, 2"),
        ("- 1 .", Looked::Next(1200, 500), "- 500 between 500 499, 2"),
        ("- 1 .", Looked::Next(1200, 501), "stop"),
    ],
    &[
        ("^ b .", Looked::Next(1200, 199), "^ 200 between 199 200, 2"),
        ("^ b .", Looked::Next(1200, 200), "stop"),
        (
            ", b .",
            Looked::Next(1000, 999),
            ", 1000 between 999 1000, 2",
        ),
        (", b .", Looked::Next(999, 0), "stop"),
        (", b .", Looked::Next(1200, 1000), "stop"),
        ("## .", Looked::Next(200, 199), "## 200 behind 199, 1"),
        ("## .", Looked::Next(199, 0), "stop"),
    ],
    &[
        ("## .", Looked::Next(1200, 200), "stop"),
        ("a .", Looked::Next(1200, 0), "stop"),
        ("\\+ b .", Looked::Next(1200, 0), "stop"),
        (") .", Looked::Next(1200, 0), "stop"),
        ("| b .", Looked::Next(1200, 0), "stop"),
        (".", Looked::Next(1200, 0), "stop"),
    ],
];

/// Adds a kind of term, and its name or its text.
fn tell_named(told: &mut String, kind: &str, name: &str) -> Result<(), AllocError> {
    write!(told, "{kind} {name}")
}

/// Adds the term that one token is.
fn tell_leaf(told: &mut String, words: &Words, leaf: &Leaf) -> Result<(), AllocError> {
    match leaf {
        Leaf::Variable(number) => write!(told, "variable {number}"),
        Leaf::Integer(value) => write!(told, "{value}"),
        Leaf::Atom(name) => tell_named(told, "atom", words.text(*name)),
        Leaf::Codes(text) => tell_named(told, "codes of", words.quoted(*text)),
        Leaf::Chars(text) => tell_named(told, "characters of", words.quoted(*text)),
    }
}

/// Adds what stands in operand position.
fn tell_opening(told: &mut String, words: &Words, opening: &Opening<'_>) -> Result<(), AllocError> {
    match opening {
        Opening::Stands(leaf, _) => tell_leaf(told, words, leaf),
        Opening::Opens(_) => told.push_str("bracket"),
        Opening::OpensList(_) => told.push_str("list"),
        Opening::OpensCurly(_) => told.push_str("braces"),
        Opening::Calls(name, _) => tell_named(told, "call of", words.text(*name)),
        Opening::Before(name, op, _) => {
            let name = words.text(*name);
            write!(told, "{name} {} before {}", op.priority, op.right)
        }
        Opening::Nothing => told.push_str("nothing"),
    }
}

/// The tokens behind that.
fn behind<'a>(opening: &Opening<'a>) -> &'a [Token] {
    match opening {
        Opening::Opens(behind) | Opening::OpensList(behind) | Opening::OpensCurly(behind) => behind,
        Opening::Stands(_, behind) => behind,
        Opening::Calls(_, behind) => behind,
        Opening::Before(_, _, behind) => behind,
        Opening::Nothing => &[],
    }
}

/// Adds what stands in operand position, and how many tokens stand behind it.
fn tell_start(told: &mut String, words: &Words, opening: &Opening<'_>) -> Result<(), AllocError> {
    tell_opening(told, words, opening)?;
    write!(told, ", {}", behind(opening).len())
}

/// Adds what extends an operand, and how many tokens stand behind it.
fn tell_next(told: &mut String, words: &Words, follower: &Follower<'_>) -> Result<(), AllocError> {
    match follower {
        Follower::Between(name, op, behind) => {
            let name = words.text(*name);
            let behind = behind.len();
            write!(
                told,
                "{name} {} between {} {}, {behind}",
                op.priority, op.left, op.right
            )
        }
        Follower::Behind(name, op, behind) => {
            let name = words.text(*name);
            let behind = behind.len();
            write!(told, "{name} {} behind {}, {behind}", op.priority, op.left)
        }
        Follower::Stop => told.push_str("stop"),
    }
}

/// Adds what is found among tokens.
fn tell(
    told: &mut String,
    operators: &OpTable,
    input: &Input<'_>,
    looked: &Looked,
) -> Result<(), AllocError> {
    let words = &input.words;
    match looked {
        Looked::Start(max) => {
            let opening = start_of(operators, words, *max, &input.tokens);
            tell_start(told, words, &opening)
        }
        Looked::Next(max, given) => {
            let follower = next_of(operators, words, *max, *given, &input.tokens);
            tell_next(told, words, &follower)
        }
    }
}

/// Whether that is found which a row tells.
fn is_found(
    alloc: Global,
    operators: &OpTable,
    input: &Input<'_>,
    row: &Row,
) -> Result<bool, AllocError> {
    let mut told = String::new(alloc);
    tell(&mut told, operators, input, &row.1)?;
    Ok(told.as_str() == row.2)
}

/// The same of the pieces of the row.
fn is_row(alloc: Global, operators: &OpTable, row: &Row) -> Result<bool, AllocError> {
    let input = input(alloc, row.0)?;
    is_found(alloc, operators, &input, row)
}

/// The place of the first row of which that is not so.
fn first_wrong(
    alloc: Global,
    operators: &OpTable,
    rows: &[Row],
) -> Result<Option<usize>, AllocError> {
    for (place, row) in rows.iter().enumerate() {
        if !is_row(alloc, operators, row)? {
            return Ok(Some(place));
        }
    }
    Ok(None)
}

/// The same under the standard operators, beside which `##` is a postfix one.
fn first_wrong_of_iso(alloc: Global, rows: &[Row]) -> Result<Option<usize>, Fail> {
    let mut operators = OpTable::iso(alloc)?;
    operators.add(200, Kind::Xf, "##")?;
    Ok(first_wrong(alloc, &operators, rows)?)
}

#[test]
fn looks(rt: HostRuntime) -> Result<(), Fail> {
    for rows in LOOKS {
        assert_eq!(rt; first_wrong_of_iso(rt.alloc(), rows)?, None);
    }
    Ok(())
}

/// Integers behind a sign, and their negatives.
const NEGATIVES: [(u64, Option<i64>); 4] = [
    (0, Some(0)),
    (1, Some(-1)),
    (9223372036854775808, Some(i64::MIN)),
    (9223372036854775809, None),
];

#[test]
fn negatives(rt: HostRuntime) {
    for (n, value) in NEGATIVES {
        assert!(rt; negative(n) == value, "{n}");
    }
}
