//! Runs a Prolog program: `prolog run PROGRAM`, with `--steps` and `--goal`.
#![tactic(auto)]

use plcommand::command::prolog_command;
use plhist::{Ending, Status, ending_of};
use plio::{FileSource, NoGate, StdSink};
use plwords::words::{Words, paths};
use std::alloc::Global;
use std::io::ErrorKind;
use std::process::ExitCode;

/// The words of the command line; or the status of what was in the way.
fn words_of(rt: &HostRuntime, alloc: Global) -> Result<Words, Status> {
    let mut words = Words::new(alloc);
    match std::env::args(rt) {
        Ok(all) => {
            for word in all {
                if words.push(word).is_err() {
                    return Err(Status::NoMemory);
                }
            }
            Ok(words)
        }
        Err(error) => Err(if error.kind() == ErrorKind::OutOfMemory {
            Status::NoMemory
        } else {
            Status::Usage
        }),
    }
}

/// Tells on standard error what the output does not tell, and ends with the status's number.
fn ended(rt: &HostRuntime, status: Status) -> ExitCode {
    let Ending { line, number } = ending_of(status);
    if let Some(line) = line {
        let _ = eprintln!(rt; "{line}");
    }
    ExitCode::from(number)
}

fn main(rt: HostRuntime) -> ExitCode {
    let alloc = rt.alloc();
    let words = match words_of(&rt, alloc) {
        Ok(words) => words,
        Err(status) => return ended(&rt, status),
    };
    let Ok((first, second)) = paths(&words) else {
        return ended(&rt, Status::NoMemory);
    };
    let mut program = FileSource::new(&rt, first);
    let mut history = FileSource::new(&rt, second);
    let mut out = StdSink::new(&rt);
    let report = prolog_command(
        &rt,
        alloc,
        &words,
        &mut program,
        &mut history,
        &mut out,
        &NoGate,
    );
    let status = report.status;
    // The process ends, which gives all memory back at once.
    std::mem::forget(report.history);
    ended(&rt, status)
}
