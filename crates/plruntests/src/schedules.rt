//! Runs of programs by their own call (plrun): the journal, and what main comes to.
use plhist::history::{History, Run};
use plhist::status::status_of;
use plload::load::load;
use plrun::run_schedule;
use std::alloc::Global;
use std::test::Fail;

/// A text and the most steps; how many entries the journal has, the status, the steps that main takes, and what it writes. A goal is run by
/// once/1, which is a step, and so is each goal that it comes to.
type Schedule = (&'static str, u64, usize, u8, u64, &'static str);

const SCHEDULES: [Schedule; 9] = [
    ("", 100, 3, 0, 0, ""),
    (":- initialization(true).", 100, 3, 0, 2, ""),
    (":- initialization(fail).", 100, 3, 1, 2, ""),
    (":- initialization(throw(x)).", 100, 3, 2, 2, ""),
    (":- initialization(halt(7)).", 100, 3, 7, 2, ""),
    (
        ":- initialization((write(a), write(b))).",
        100,
        3,
        0,
        4,
        "ab",
    ),
    // The limit is met before the second goal is called.
    (":- initialization((write(a), write(b))).", 3, 3, 4, 3, "a"),
    // A clause that is added, and one that is erased, are an entry each.
    (
        ":- dynamic p/1. :- initialization(assertz(p(1))).",
        100,
        4,
        0,
        2,
        "",
    ),
    (
        ":- dynamic p/1. p(1). :- initialization(retract(p(1))).",
        100,
        4,
        0,
        2,
        "",
    ),
];

/// The run of main, if it is the only one.
fn only(history: &History) -> Option<&Run> {
    match history.runs.as_slice() {
        [run] => Some(run),
        _ => None,
    }
}

/// Whether a history is what a row says.
fn is_as_said(history: &History, row: &Schedule) -> bool {
    let (_, _, entries, status, steps, output) = *row;
    match only(history) {
        Some(run) => {
            run.thread.get() == 1
                && run.steps == steps
                && run.output.as_slice() == output.as_bytes()
                && history.journal.as_slice().len() == entries
                && status_of(&history.journal).number() == status
        }
        None => false,
    }
}

/// Runs a row's program: whether it comes to what the row says.
fn comes_to(alloc: Global, row: &Schedule) -> Result<bool, Fail> {
    let Ok(program) = load(alloc, row.0.as_bytes()) else {
        return Err("refused".into());
    };
    let history = run_schedule(alloc, &program, row.1, &[])?;
    Ok(is_as_said(&history, row))
}

#[test]
fn schedules(rt: HostRuntime) -> Result<(), Fail> {
    for row in &SCHEDULES {
        assert!(rt; comes_to(rt.alloc(), row)?, "{}", row.0);
    }
    Ok(())
}
