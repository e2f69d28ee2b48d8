//! The report of a history.
ghost use Rattle.std.specs.Prelude.{◌≡◌, ◌++◌, List, IfOk, OnOk};
ghost use Rattle.plevent.specs.declared.act.Entry.{Entry};
ghost use Rattle.plevent.specs.Reading.{reading};
ghost use Rattle.plhist.specs.Report.{alias_of, alias_text, end_text, run_end_text, closing, run_text, report_text};

use crate::history::{History, Run, RunEnd};
use itoa::Buffer;
use plevent::{ThreadEnd, ThreadId};
use plops::table::OpTable;
use plwrite::style::Style;
use plwrite::write::write_term;
use std::alloc::{AllocError, Global};

/// The alias of a thread behind its number: main is the only thread that has one.
fn alias(thread: ThreadId) -> &'static str
    ensures { (h : List Entry) → result.now ≡ alias_text (alias_of thread (reading h).standing.threads) }
{
    let number = thread.get();
    if number == 1 { " main" } else { "" }
}

fn push_end(
    alloc: Global,
    text: &mut Vec<u8>,
    end: &ThreadEnd,
    ops: &OpTable,
) -> Result<(), AllocError>
    ensures { OnOk result (text.new.items ≡ text.old.items ++ end_text ops.now end.now) }
{
    match end {
        ThreadEnd::True => text.extend_from_slice(b"true"),
        ThreadEnd::False => text.extend_from_slice(b"false"),
        ThreadEnd::Exception(ball) => {
            let ball = write_term(alloc, ball, ops, Style::Quoted)?;
            text.extend_from_slice(b"exception(")?;
            text.extend_from_slice(&ball)?;
            text.extend_from_slice(b")")
        }
        ThreadEnd::Budget => text.extend_from_slice(b"budget"),
        ThreadEnd::Halt(number) => {
            let mut buffer = Buffer::new();
            text.extend_from_slice(b"halt(")?;
            text.extend_from_slice(buffer.format(*number).as_bytes())?;
            text.extend_from_slice(b")")
        }
    }
}

fn push_run_end(
    alloc: Global,
    text: &mut Vec<u8>,
    end: &RunEnd,
    ops: &OpTable,
) -> Result<(), AllocError>
    ensures { OnOk result (text.new.items ≡ text.old.items ++ run_end_text ops.now end.now) }
{
    match end {
        RunEnd::Ended(end) => push_end(alloc, text, end, ops),
    }
}

/// Adds a newline behind an output that does not end with one.
fn push_closing(text: &mut Vec<u8>, output: &[u8]) -> Result<(), AllocError>
    ensures { OnOk result (text.new.items ≡ text.old.items ++ closing output.now) }
{
    let last = output.last().copied().unwrap_or(b'\n');
    if last == b'\n' {
        return Ok(());
    }
    text.extend_from_slice(b"\n")
}

fn push_run(alloc: Global, text: &mut Vec<u8>, run: &Run, ops: &OpTable) -> Result<(), AllocError>
    ensures { OnOk result ((h : List Entry) → text.new.items ≡ text.old.items ++ run_text ops.now h run.now) }
{
    let mut buffer = Buffer::new();
    text.extend_from_slice(b"% thread ")?;
    text.extend_from_slice(buffer.format(run.thread.get()).as_bytes())?;
    text.extend_from_slice(alias(run.thread).as_bytes())?;
    text.extend_from_slice(b": ")?;
    push_run_end(alloc, text, &run.end, ops)?;
    text.extend_from_slice(b"\n")?;
    let output = run.output.as_slice();
    text.extend_from_slice(output)?;
    push_closing(text, output)?;
    Ok(())
}

/// The report of a history, in which the balls of exceptions are written quoted under these operators: for each
/// thread the line `% thread N: END`, or `% thread N ALIAS: END` where it has an alias, then its output, and a newline
/// if the output is not empty and does not end with one.
pub fn report_text(alloc: Global, history: &History, ops: &OpTable) -> Result<Vec<u8>, AllocError>
    ensures { IfOk result (λ text. text.items ≡ report_text ops.now history.now) }
{
    let mut text = Vec::new(alloc);
    let runs = history.runs.as_slice();
    for run in runs {
        push_run(alloc, &mut text, run, ops)?;
    }
    Ok(text)
}
