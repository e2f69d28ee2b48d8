//! The words of a command line (plwords).
use plwords::form::Form;
use plwords::words::{Words, paths};
use std::alloc::{AllocError, Global};
use std::test::Fail;

/// Adds the words of a command line, which stand between bars.
fn push_all(alloc: Global, words: &mut Words, line: &str) -> Result<(), AllocError> {
    for word in line.split('|') {
        words.push(word.to_string(alloc)?)?;
    }
    Ok(())
}

/// The steps, the goal and the path of a run.
type Run<'a> = (u64, Option<&'a str>, &'a str);

/// The run that the words ask for.
fn run_of(words: &Words) -> Option<Run<'_>> {
    match words.command() {
        Ok(command) => match command.form {
            Form::Run { steps, goal } => Some((steps, goal, command.path)),
            _ => None,
        },
        Err(_) => None,
    }
}

/// The words of a command line, with bars between them, and the run that they ask for; none where they are of no form.
type Row = (&'static str, Option<Run<'static>>);

const LINES: [&[Row]; 5] = [
    &[
        ("prolog|run|P", Some((1_073_741_824, None, "P"))),
        ("prolog|--steps=5|run|P", Some((5, None, "P"))),
        ("prolog|run|P|--steps|+7", Some((7, None, "P"))),
        (
            "prolog|run|--goal|a|P",
            Some((1_073_741_824, Some("a"), "P")),
        ),
        (
            "prolog|run|--goal=-a|P",
            Some((1_073_741_824, Some("-a"), "P")),
        ),
        ("prolog|run|--goal=|P", Some((1_073_741_824, Some(""), "P"))),
    ],
    &[
        ("prolog|run|--|-P", Some((1_073_741_824, None, "-P"))),
        ("prolog|run|-", Some((1_073_741_824, None, "-"))),
        // What a goal's text is, others say.
        (
            "prolog|run|--goal|a b|P",
            Some((1_073_741_824, Some("a b"), "P")),
        ),
        (
            "prolog|run|--goal|1|P",
            Some((1_073_741_824, Some("1"), "P")),
        ),
        (
            "prolog|run|P|--steps|1099511627776",
            Some((1_099_511_627_776, None, "P")),
        ),
    ],
    &[
        ("prolog", None),
        ("prolog|run", None),
        ("prolog|go|P", None),
        ("prolog|P|run", None),
        ("prolog|run|P|Q", None),
        ("prolog|run|-x", None),
    ],
    &[
        ("prolog|run|--x", None),
        ("prolog|--help", None),
        ("prolog|--version", None),
        ("prolog|run|--workers|17|P", None),
        ("prolog|run|--steps|0|P", None),
        ("prolog|run|--steps|1099511627777|P", None),
    ],
    &[
        ("prolog|run|--steps|5|--steps|6|P", None),
        ("prolog|run|P|--steps", None),
        ("prolog|run|--goal|-a|P", None),
        ("prolog|run|P|--goal|a|--goal|b", None),
        ("prolog|check|--steps|5|P", None),
        ("prolog|list|P|--goal|a", None),
    ],
];

/// Whether the words ask for this run, of the program of its path; for none where they are of no form.
fn is_asked(words: &Words, run: Option<Run<'_>>) -> Result<bool, AllocError> {
    let path = run.map(|(_, _, path)| path);
    Ok(run_of(words) == run && paths(words)? == (path, None))
}

/// The same of the words of a row.
fn is_line(alloc: Global, row: &Row) -> Result<bool, AllocError> {
    let (line, run) = *row;
    let mut words = Words::new(alloc);
    push_all(alloc, &mut words, line)?;
    is_asked(&words, run)
}

/// The first line of which that is not so.
fn first_wrong(alloc: Global, rows: &[Row]) -> Result<Option<&'static str>, AllocError> {
    for row in rows.iter() {
        if !is_line(alloc, row)? {
            return Ok(Some(row.0));
        }
    }
    Ok(None)
}

// Options stand before, between and after the words, a value may follow `=`, and `--` ends the options; other words are of
// no form.
#[test]
fn lines(rt: HostRuntime) -> Result<(), Fail> {
    for rows in LINES {
        assert_eq!(rt; first_wrong(rt.alloc(), rows)?, None);
    }
    Ok(())
}
