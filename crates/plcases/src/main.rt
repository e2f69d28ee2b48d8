//! Runs worked cases: programs and goals in files, with what they are to come to. Each word of the command line is the path of a file of
//! cases (`NAME.cases`), or of a program (`NAME.pl`) with its output beside it (`NAME.out`). It tells which cases come to anything else,
//! and how many there are.
//!
//! A file of cases is read line by line. Between two cases a line is empty, or a comment that begins with `%`. A case is
//!
//! ```text
//! %% run --steps 100
//! %% --goal write(b), nl
//! :- initialization(main).
//! main :- write(a).
//! %% status 0
//! % thread 1 main: true
//! ab
//! %% end
//! ```
//!
//! that is the words of the command line, without `prolog` and the path, which stand before and behind them; options whose value has
//! blanks, each in a line; the program's text, without the newline of its last line (so where the text ends with one an empty line
//! follows); the number that the process ends with, and its output. Where the first word is `prolog`, the line has all words of the
//! command line, and nothing is put before or behind them. In place of `%% status 0` and the output, `%% journal` may stand with what a
//! run adds to the journal.
//!
//! Goals that share a program are rows of one case:
//!
//! ```text
//! %% goals
//! :- initialization((catch((GOAL), error(Error, _), writeq(Error)))).
//! %% are
//! X = f(Y), writeq(X) => f(_1)
//! atom_length(X, 4) => instantiation_error
//! write(a), nl, write(b) => a
//! => b
//! %% end
//! ```
//!
//! Each goal is put where `GOAL` stands in the text, or is given by `--goal` where it stands nowhere, and main succeeds. Behind ` => `
//! stands what it writes, a further line of which begins with `=> `; without an arrow it writes nothing. Behind `%% and` another program
//! may stand, in which each of the goals is run too. Between the goals comments may stand.
//!
//! Between cases `%% memory` notes the most memory that the process has taken so far, where the system tells it, and `%% memory 16000` says
//! that it has taken at most so many kilobytes more since then.
#![tactic(auto)]

mod case;
mod cases;
mod examples;
mod journal;
mod memory;
mod runs;
mod tally;

use crate::cases::check_cases;
use crate::examples::check_example;
use crate::runs::Fault;
use crate::tally::Tally;
use std::alloc::Global;
use std::process::ExitCode;
use std::rt::{Env, Files};
use std::sync::Wait;
use std::thread::Threads;

/// Checks what a path names. The outputs of programs are read with these.
fn check_path<R: Files + Threads + Wait + Sync>(
    rt: &R,
    alloc: Global,
    path: &str,
    tally: &mut Tally,
) -> Result<(), Fault> {
    if path.ends_with(".out") {
        return Ok(());
    }
    match path.strip_suffix(".pl") {
        Some(stem) => check_example(rt, alloc, stem, tally),
        None => check_cases(rt, alloc, path, tally),
    }
}

/// Checks what the words of the command line name.
fn check_all<R: Alloc + Env + Files + Threads + Wait + Sync>(
    rt: &R,
    alloc: Global,
    tally: &mut Tally,
) -> Result<(), Fault> {
    let Ok(paths) = std::env::args(rt) else {
        return Err(Fault::NoMemory);
    };
    for path in paths.skip(1) {
        check_path(rt, alloc, path.as_str(), tally)?;
    }
    Ok(())
}

/// Prints what was found: whether nothing is wrong.
fn told(rt: &HostRuntime, tally: &Tally, found: Result<(), Fault>) -> bool {
    let text = tally.text();
    let _ = print!(rt; "{text}");
    match found {
        Ok(()) => tally.is_clean(),
        Err(fault) => {
            let path = tally.path();
            let line = tally.line();
            let _ = println!(rt; "{path}:{line}: {fault}");
            false
        }
    }
}

fn main(rt: HostRuntime) -> ExitCode {
    let alloc = rt.alloc();
    let mut tally = Tally::new(alloc);
    let found = check_all(&rt, alloc, &mut tally);
    let count = tally.count();
    if told(&rt, &tally, found) {
        let _ = println!(rt; "{count} cases, none wrong");
        ExitCode::from(0)
    } else {
        ExitCode::from(1)
    }
}
