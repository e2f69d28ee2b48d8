//! Reports and statuses (plhist).
use plevent::{Act, Batch, Entry, JournalPlace, ThreadEnd, ThreadId, WorkerId};
use plhist::history::{History, Journal, Output, Places, Run, RunEnd, Runs};
use plhist::report::report_text;
use plhist::status::{Status, kind_word, refusal_text, status_of};
use plload::error::RefusalKind;
use plops::table::OpTable;
use plterm::name::Name;
use plterm::term::Term;
use std::alloc::{AllocError, Global};
use std::test::Fail;

/// An end, by the word that it is told with.
fn end_of(alloc: Global, word: &str) -> Result<ThreadEnd, AllocError> {
    if word == "true" {
        return Ok(ThreadEnd::True);
    }
    if word == "false" {
        return Ok(ThreadEnd::False);
    }
    if word == "budget" {
        return Ok(ThreadEnd::Budget);
    }
    if word == "halt" {
        return Ok(ThreadEnd::Halt(44));
    }
    match Term::atom(alloc, Name::new(alloc, word)?) {
        Ok(ball) => Ok(ThreadEnd::Exception(ball)),
        Err(_) => Err(AllocError),
    }
}

/// The entry of an end: one that ends the run is no end that is told.
fn act_of(end: ThreadEnd) -> Act {
    match end {
        ThreadEnd::Halt(number) => Act::Halt(number),
        _ => Act::End(end),
    }
}

/// Adds an act of the worker and the thread of a number.
fn put_act(entries: &mut Vec<Entry>, of: u32, act: Act) -> Result<(), AllocError> {
    entries.push(Entry {
        worker: WorkerId::new(of),
        thread: ThreadId::new(of),
        act,
    })?;
    Ok(())
}

/// Adds the end of main.
fn put_end(alloc: Global, entries: &mut Vec<Entry>, word: &str) -> Result<(), AllocError> {
    let end = end_of(alloc, word)?;
    put_act(entries, 1, act_of(end))
}

/// Adds the program, and the start and the end of main.
fn put_acts(alloc: Global, entries: &mut Vec<Entry>, word: &str) -> Result<(), AllocError> {
    put_act(entries, 0, Act::Batch(Batch::new(alloc, Vec::new(alloc))))?;
    put_act(entries, 1, Act::Start)?;
    put_end(alloc, entries, word)
}

/// The journal of a run in which main ends so.
fn journal_of(alloc: Global, word: &str) -> Result<Journal, AllocError> {
    let mut entries = Vec::new(alloc);
    put_acts(alloc, &mut entries, word)?;
    Ok(Journal::new(entries))
}

/// The place of main's one step.
fn places(alloc: Global) -> Result<Places, AllocError> {
    let places = Vec::from_slice(alloc, &[JournalPlace::new(2)])?;
    Ok(Places::new(places))
}

/// The output of a text.
fn output_of(alloc: Global, text: &str) -> Result<Output, AllocError> {
    let text = Vec::from_slice(alloc, text.as_bytes())?;
    Ok(Output::new(text))
}

/// The run of main.
fn main_of(places: Places, end: ThreadEnd, output: Output) -> Run {
    Run {
        thread: ThreadId::MAIN,
        places,
        steps: 1,
        end: RunEnd::Ended(end),
        output,
    }
}

/// The run in which main ends so.
fn run_of(alloc: Global, word: &str, output: &str) -> Result<Run, AllocError> {
    let places = places(alloc)?;
    let output = output_of(alloc, output)?;
    let end = end_of(alloc, word)?;
    Ok(main_of(places, end, output))
}

/// The runs of one in which main ends so.
fn runs_of(alloc: Global, word: &str, output: &str) -> Result<Runs, AllocError> {
    let run = run_of(alloc, word, output)?;
    let runs = vec![in alloc; run]?;
    Ok(Runs::new(runs))
}

/// A history in which main ends so.
fn history_of(alloc: Global, word: &str, output: &str) -> Result<History, AllocError> {
    let journal = journal_of(alloc, word)?;
    let runs = runs_of(alloc, word, output)?;
    Ok(History { journal, runs })
}

/// The word of main's end, its output, the report, and the status.
type Row = (&'static str, &'static str, &'static str, u8);

const REPORTS: [Row; 8] = [
    ("true", "hello\n", "% thread 1 main: true\nhello\n", 0),
    ("true", "1", "% thread 1 main: true\n1\n", 0),
    ("true", "", "% thread 1 main: true\n", 0),
    ("false", "", "% thread 1 main: false\n", 1),
    ("x", "", "% thread 1 main: exception(x)\n", 2),
    ("X", "", "% thread 1 main: exception('X')\n", 2),
    ("budget", "ok\n", "% thread 1 main: budget\nok\n", 4),
    ("halt", "a", "% thread 1 main: halt(44)\na\n", 44),
];

/// Whether these are the report and the status of a history.
fn is_reported(
    alloc: Global,
    ops: &OpTable,
    history: &History,
    text: &str,
    status: u8,
) -> Result<bool, AllocError> {
    let report = report_text(alloc, history, ops)?;
    let number = status_of(&history.journal).number();
    Ok(report.as_slice() == text.as_bytes() && number == status)
}

/// Whether a row is right.
fn is_right(alloc: Global, ops: &OpTable, row: &Row) -> Result<bool, AllocError> {
    let (word, output, text, status) = row;
    let history = history_of(alloc, word, output)?;
    is_reported(alloc, ops, &history, text, *status)
}

/// The place of the first row that is wrong.
fn wrong_report(alloc: Global, ops: &OpTable) -> Result<Option<usize>, AllocError> {
    for (place, row) in REPORTS.iter().enumerate() {
        if !is_right(alloc, ops, row)? {
            return Ok(Some(place));
        }
    }
    Ok(None)
}

/// The same with the operators of the standard.
fn wrong(alloc: Global) -> Result<Option<usize>, AllocError> {
    let ops = OpTable::iso(alloc)?;
    wrong_report(alloc, &ops)
}

#[test]
fn reports(rt: HostRuntime) -> Result<(), Fail> {
    assert_eq!(rt; wrong(rt.alloc())?, None);
    Ok(())
}

/// The number of the status of a refusal, and whether it has no line of its own.
fn told_of_refusal() -> (u8, bool) {
    let status = Status::Refused {
        line: 3,
        column: 1,
        kind: RefusalKind::Lex,
    };
    (status.number(), status.line().is_none())
}

/// Whether the text of a refusal is this.
fn is_refusal_text(alloc: Global, wanted: &[u8]) -> Result<bool, AllocError> {
    let text = refusal_text(alloc, 3, 1, RefusalKind::Lex)?;
    Ok(text.as_slice() == wanted)
}

#[test]
fn tells_a_refusal(rt: HostRuntime) -> Result<(), Fail> {
    assert!(rt; is_refusal_text(rt.alloc(), b"refused: line 3 column 1: lex\n")?);
    assert!(rt; told_of_refusal() == (65, true));
    Ok(())
}

/// A kind of refusal, and its word.
const KINDS: [(RefusalKind, &str); 5] = [
    (RefusalKind::Lex, "lex"),
    (RefusalKind::Syntax, "syntax"),
    (RefusalKind::NotCallable, "not_callable"),
    (RefusalKind::StaticRedefined, "static_redefined"),
    (RefusalKind::BadDirective, "bad_directive"),
];

/// The place of the first of these rows that is wrong.
fn wrong_kind() -> Option<usize> {
    for (place, (kind, word)) in KINDS.iter().enumerate() {
        if kind_word(*kind) != *word {
            return Some(place);
        }
    }
    None
}

#[test]
fn kinds_of_refusals(rt: HostRuntime) {
    assert_eq!(rt; wrong_kind(), None);
}
