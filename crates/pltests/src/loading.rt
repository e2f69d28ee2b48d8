//! Programs and their refusals (plload).
use crate::terms::indicator;
use plload::error::{LoadError, RefusalKind};
use plload::goal::{is_goal, read_goal};
use plload::load::{listing, load};
use plterm::indicator::Indicator;
use plterm::term::Term;
use std::alloc::{AllocError, Global};
use std::test::Fail;

const TEXT: &str = "p(1). q. p(X) :- q, X.\n:- initialization(p(1)). :- q. p(2).";

/// A text, a procedure, how many clauses that has, and how many goals main has.
type CountRow = (&'static str, &'static str, u16, usize, usize);

const COUNTS: [CountRow; 5] = [
    ("", "p", 0, 0, 0),
    ("\u{feff}% c\n", "p", 0, 0, 0),
    (TEXT, "p", 1, 3, 2),
    (TEXT, "q", 0, 1, 2),
    (TEXT, "p", 2, 0, 2),
];

/// Whether a term has so many variables.
fn has_variables(alloc: Global, term: &Term, count: usize) -> bool {
    match term.variables(alloc) {
        Ok(variables) => variables.len() == count,
        Err(_) => false,
    }
}

/// Whether the goals are three, with two variables, one and none.
fn are_in_order(alloc: Global, goals: &[Term]) -> bool {
    match goals {
        [first, second, third] => {
            has_variables(alloc, first, 2)
                && has_variables(alloc, second, 1)
                && has_variables(alloc, third, 0)
        }
        _ => false,
    }
}

/// How many clauses the procedure and how many goals main has in the program of a text, whether these goals are so, and
/// whether the first batch of its journal is empty; or why the text is no program.
fn told_of(
    alloc: Global,
    text: &str,
    procedure: &Indicator,
) -> Result<(usize, usize, bool, bool), LoadError> {
    let program = load(alloc, text.as_bytes())?;
    Ok((
        program.clauses_of(procedure).len(),
        program.goals().len(),
        are_in_order(alloc, program.goals()),
        program.first().as_slice().is_empty(),
    ))
}

/// Whether the program of a text has so many.
fn is_counted(alloc: Global, row: &CountRow) -> Result<bool, AllocError> {
    let (text, name, arity, clauses, goals) = *row;
    let procedure = indicator(alloc, name, arity)?;
    Ok(match told_of(alloc, text, &procedure) {
        Ok((count, main, _, _)) => count == clauses && main == goals,
        Err(_) => false,
    })
}

// Clauses of a procedure need not stand together; goals and other directives are goals of main.
#[test]
fn programs(rt: HostRuntime) -> Result<(), Fail> {
    for row in COUNTS.iter() {
        assert!(rt; is_counted(rt.alloc(), row)?, "{}/{}", row.1, row.2);
    }
    Ok(())
}

/// A text, and the line, the column and the kind of its first refusal.
type RefusalRow = (&'static str, u64, u64, RefusalKind);

const REFUSALS: [&[RefusalRow]; 4] = [
    &[
        ("a.\nb.\nc :- x,", 3, 1, RefusalKind::Lex),
        ("a. b('c).", 1, 6, RefusalKind::Lex),
        (":- op(200, xf, +).", 1, 1, RefusalKind::BadDirective),
        (":- op(700, xfx, [a, ','])).", 1, 1, RefusalKind::Syntax),
        (
            ":- op(700, xfx, [a, ',']).",
            1,
            1,
            RefusalKind::BadDirective,
        ),
        (":- dynamic(p).", 1, 1, RefusalKind::BadDirective),
    ],
    &[
        (":- dynamic(true/0).", 1, 1, RefusalKind::BadDirective),
        (":- module(m, []).", 1, 1, RefusalKind::BadDirective),
        (":- thread_local a/1.", 1, 1, RefusalKind::BadDirective),
        (
            ":- set_prolog_flag(max_arity, 1).",
            1,
            1,
            RefusalKind::BadDirective,
        ),
        (":- use_module(lists).", 1, 1, RefusalKind::BadDirective),
        (
            "a. X ===> b. :- op(700, xfx, ===>).",
            1,
            4,
            RefusalKind::Syntax,
        ),
    ],
    &[
        ("a.\n  b c.", 2, 3, RefusalKind::Syntax),
        ("1 :- a.", 1, 1, RefusalKind::NotCallable),
        ("X.", 1, 1, RefusalKind::NotCallable),
        ("a. p :- q, 1.", 1, 4, RefusalKind::NotCallable),
        ("true.", 1, 1, RefusalKind::StaticRedefined),
        ("write(X) :- nl.", 1, 1, RefusalKind::StaticRedefined),
    ],
    &[
        ("-->(a, b).", 1, 1, RefusalKind::StaticRedefined),
        ("a --> b.", 1, 1, RefusalKind::StaticRedefined),
        (":- initialization.", 1, 1, RefusalKind::BadDirective),
        (":- X.", 1, 1, RefusalKind::BadDirective),
        (
            ":- initialization((a, 1)).",
            1,
            1,
            RefusalKind::BadDirective,
        ),
    ],
];

/// The first text that is not refused so.
fn first_not_refused(alloc: Global, rows: &[RefusalRow]) -> Option<&'static str> {
    for row in rows.iter() {
        let (text, line, column, kind) = *row;
        let found = load(alloc, text.as_bytes()).err();
        if found != Some(LoadError::Refused { line, column, kind }) {
            return Some(text);
        }
    }
    None
}

// The first clause that is refused, with its line and its column.
#[test]
fn refusals(rt: HostRuntime) {
    for rows in REFUSALS {
        assert_eq!(rt; first_not_refused(rt.alloc(), rows), None);
    }
}

// Main's goals stand in text order, each with its own variables.
#[test]
fn goals_in_order(rt: HostRuntime) -> Result<(), Fail> {
    let procedure = indicator(rt.alloc(), "a", 2)?;
    let text = ":- a(X, Y). :- initialization(b(Y)). :- c.";
    assert!(rt; told_of(rt.alloc(), text, &procedure)? == (0, 3, true, true));
    Ok(())
}

/// Texts, and whether they are goals.
const GOALS: [(&str, bool); 10] = [
    ("a,b", true),
    ("write(x)", true),
    ("\\+ a:-b", true),
    ("a b", false),
    ("1", false),
    ("X", false),
    ("a,1", false),
    ("", false),
    ("a. b", false),
    ("a %", false),
];

/// Whether a text is read as a goal with the variables 0 and 1.
fn is_read(alloc: Global, text: &str) -> Result<bool, AllocError> {
    match read_goal(alloc, text)? {
        Some(goal) => {
            let variables = goal.variables(alloc)?;
            Ok(variables.as_slice() == [0, 1].as_slice())
        }
        None => Ok(false),
    }
}

// A goal beside the text is one whole clause with its end, callable and convertible. It is read as the goal with its
// variables by first occurrence.
#[test]
fn goals_beside(rt: HostRuntime) -> Result<(), Fail> {
    for (text, is) in GOALS.iter() {
        assert!(rt; is_goal(rt.alloc(), text)? == *is, "{text}");
    }
    assert!(rt; is_read(rt.alloc(), "p(X, Y, X)")? && read_goal(rt.alloc(), "1")?.is_none());
    Ok(())
}

/// Whether the listing of a text has these lines.
fn is_listed(alloc: Global, text: &[u8], lines: &[u8]) -> Result<bool, LoadError> {
    let listed = listing(alloc, text)?;
    Ok(listed.as_slice() == lines)
}

// A listing has each clause and each directive in a line of its own.
#[test]
fn listings(rt: HostRuntime) -> Result<(), Fail> {
    let text = b"p(X,Y) :- q(Y,X), \\+ r. :- a.";
    let lines = b"p(_1,_2):-q(_2,_1),\\+r.\n:-a.\n";
    assert!(rt; is_listed(rt.alloc(), text, lines)?);
    Ok(())
}
