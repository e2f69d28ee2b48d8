//! Programs with their outputs.
use crate::case::{Asked, Case};
use crate::runs::{Fault, file};
use crate::tally::Tally;
use std::alloc::Global;
use std::rt::Files;
use std::sync::Wait;
use std::thread::Threads;

/// The number that a process ends with whose output begins so.
fn status_of(output: &str) -> Option<u8> {
    let rest = output.strip_prefix("% thread 1 main: ")?;
    if rest.starts_with("true\n") {
        return Some(0);
    }
    if rest.starts_with("false\n") {
        return Some(1);
    }
    if rest.starts_with("exception(") {
        return Some(2);
    }
    let halted = rest.strip_prefix("halt(")?;
    let (number, _) = halted.split_once(')')?;
    number.parse::<u8>().ok()
}

/// The case of a program whose output is this.
fn case_of(alloc: Global, program: &[u8], output: &[u8]) -> Result<Case, Fault> {
    let Ok(text) = std::str::from_utf8(output) else {
        return Err(Fault::Misplaced);
    };
    let (Some(status), Some(lines)) = (status_of(text), text.strip_suffix('\n')) else {
        return Err(Fault::Misplaced);
    };
    let mut case = Case::new(alloc, 1);
    case.add_words("run")?;
    case.add_text(program)?;
    case.ask(Asked::Report(status));
    case.add_wanted(lines.as_bytes())?;
    Ok(case)
}

/// Checks a program by its name without `.pl`.
pub fn check_example<R: Files + Threads + Wait + Sync>(
    rt: &R,
    alloc: Global,
    stem: &str,
    tally: &mut Tally,
) -> Result<(), Fault> {
    let path = format!(in alloc; "{stem}.pl")?;
    tally.begin(path.as_str())?;
    let program = file(rt, alloc, path.as_str())?;
    let beside = format!(in alloc; "{stem}.out")?;
    let output = file(rt, alloc, beside.as_str())?;
    let case = case_of(alloc, &program, &output)?;
    case.check(rt, tally)
}
