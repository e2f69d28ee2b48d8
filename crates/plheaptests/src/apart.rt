//! Terms that are seen to be apart from a value.
ghost use Rattle.std.specs.Prelude.{◌≡◌, []};

use crate::made::{empty, goal_of, put_text};
use plbind::apart::{are_apart, is_apart};
use plcells::heap::Heap;
use std::alloc::Global;
use std::fmt::Write;
use std::string::String;
use std::test::Fail;

/// A value and a term, and whether their arguments, and they themselves, are seen to be apart.
type Row = (&'static str, &'static str, bool, bool);

/// Values and terms that are seen to be apart, or not: by their names, or by an argument that is no variable, and no further in.
const APART: [&[Row]; 3] = [
    &[
        ("f(X, b)", "f(a, c)", true, true),
        ("f(X, b)", "f(a, b)", false, false),
        ("f(X, b)", "f(a, Y)", false, false),
        ("f(X, X)", "f(a, b)", false, false),
        ("f(a)", "f(1)", true, true),
        ("f(a)", "f(g(a))", true, true),
        ("f(1)", "f(1)", false, false),
        ("f(1)", "f(2)", true, true),
    ],
    &[
        ("f(1)", "f(a)", true, true),
        ("f(1)", "f(g(1))", true, true),
        ("f(4294967296)", "f(4294967296)", false, false),
        ("f(4294967296)", "f(0)", true, true),
        ("f(g(a))", "f(a)", true, true),
        ("f(g(a))", "f(1)", true, true),
        ("f(g(a))", "f(g(b))", false, false),
        ("f(g(a))", "f(h(a))", true, true),
    ],
    &[
        ("f(a)", "g(a)", false, true),
        ("f(a)", "a", false, true),
        ("a", "f(a)", false, true),
        ("a", "b", false, true),
        ("a", "a", false, false),
    ],
];

/// Whether the arguments of the value of a text that is put and of the term of another one are seen to be apart, and whether the two are.
fn apart_in(heap: &mut Heap, alloc: Global, value: &str, text: &str) -> Result<(bool, bool), Fail>
    requires { heap.old.cells ≡ [] }
{
    let v = put_text(heap, alloc, value)?;
    let term = goal_of(alloc, text)?;
    let whole = is_apart(heap, &v, &term.root());
    Ok((are_apart(heap, v, &term.root()), whole))
}

/// Whether the arguments of the value of a text and of the term of another one are seen to be apart, and whether the two are.
fn apart(alloc: Global, value: &str, text: &str) -> Result<(bool, bool), Fail> {
    let mut heap = empty(alloc);
    apart_in(&mut heap, alloc, value, text)
}

/// Adds the rows that are wrong.
fn put_wrong(alloc: Global, rows: &[Row], wrong: &mut String) -> Result<(), Fail> {
    for (value, text, arguments, whole) in rows.iter() {
        if apart(alloc, value, text)? != (*arguments, *whole) {
            write!(wrong, "{value} and {text}, ")?;
        }
    }
    Ok(())
}

#[test]
fn rows_of_what_is_apart(rt: HostRuntime) -> Result<(), Fail> {
    let mut wrong = String::new(rt.alloc());
    for rows in APART {
        put_wrong(rt.alloc(), rows, &mut wrong)?;
    }
    assert_eq!(rt; wrong.as_str(), "");
    Ok(())
}
