//! Lists among the terms of complete operands (plread).
ghost use Rattle.std.specs.Prelude.{◌≡◌, ◌+◌, length, OnOk};

use crate::reading::has_shape;
use plread::lists::{close, join, push_chars, push_codes};
use plread::words::Words;
use plterm::builder::Builder;
use plterm::node::Node;
use plterm::term::Term;
use std::alloc::{AllocError, Global};
use std::test::Fail;

/// A list, by what it is made of.
enum Made {
    /// 1 and 2, with a variable as its tail.
    Joined,
    /// 1, 2 and a variable.
    Closed,
    /// The codes of a text.
    Codes(&'static str),
    /// The characters of a text.
    Chars(&'static str),
}

/// A list, and its nodes in prefix order: a list's cells have the name `.` (6.3.5).
type Row = (Made, &'static str);

const LISTS: [Row; 8] = [
    (Made::Joined, "./2 1 ./2 2 _0"),
    (Made::Closed, "./2 1 ./2 2 ./2 _0 []"),
    (Made::Codes(""), "[]"),
    (Made::Chars(""), "[]"),
    (Made::Codes("a"), "./2 97 []"),
    (Made::Chars("a"), "./2 a []"),
    (Made::Codes("aé€"), "./2 97 ./2 233 ./2 8364 []"),
    (Made::Chars("aé€"), "./2 a ./2 é ./2 € []"),
];

/// Adds 1, 2 and a variable.
fn push_three(terms: &mut Builder) -> Result<(), AllocError>
    ensures { OnOk result (length terms.new ≡ length terms.old + 3) }
{
    terms.push(Node::Int(1))?;
    terms.push(Node::Int(2))?;
    terms.push(Node::Var(0))
}

/// Adds a list to no terms.
fn push(alloc: Global, words: &Words, terms: &mut Builder, made: &Made) -> Result<(), AllocError>
    requires { length terms.old ≡ 0 }
    ensures { OnOk result (length terms.new ≡ 1) }
{
    match made {
        Made::Joined => {
            push_three(terms)?;
            join(alloc, words, terms, 2)
        }
        Made::Closed => {
            push_three(terms)?;
            close(alloc, words, terms, 3)
        }
        Made::Codes(text) => push_codes(alloc, words, terms, text),
        Made::Chars(text) => push_chars(alloc, words, terms, text),
    }
}

fn list(alloc: Global, words: &Words, made: &Made) -> Result<Term, AllocError> {
    let mut terms = Builder::new(alloc);
    push(alloc, words, &mut terms, made)?;
    terms.finish(alloc)
}

/// Whether a list has the nodes of its row.
fn is_row(alloc: Global, words: &Words, row: &Row) -> Result<bool, Fail> {
    let list = list(alloc, words, &row.0)?;
    has_shape(alloc, &list, row.1)
}

/// The place of the first row of which that is not so.
fn first_wrong(alloc: Global, words: &Words, rows: &[Row]) -> Result<Option<usize>, Fail> {
    for (place, row) in rows.iter().enumerate() {
        if !is_row(alloc, words, row)? {
            return Ok(Some(place));
        }
    }
    Ok(None)
}

#[test]
fn lists(rt: HostRuntime) -> Result<(), Fail> {
    let words = Words::new(rt.alloc())?;
    assert_eq!(rt; first_wrong(rt.alloc(), &words, &LISTS)?, None);
    Ok(())
}
