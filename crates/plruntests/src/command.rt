//! What the words of a command line make of a text.
use plcommand::command::{Report, prolog_command};
use plhist::Status;
use plio::{MemorySink, MemorySource, NoGate};
use plwords::words::Words;
use std::alloc::{AllocError, Global};
use std::sync::Wait;
use std::thread::Threads;

/// The words that run a program.
const RUN: [&str; 3] = ["prolog", "run", "P"];

/// What a run of a text comes to: the output and the status.
pub(crate) fn told<R: Threads + Wait + Sync>(
    rt: &R,
    alloc: Global,
    text: &[u8],
) -> Result<(Vec<u8>, Status), AllocError> {
    let source = MemorySource::new(Vec::from_slice(alloc, text)?, 4096, Vec::new(alloc));
    let sink = MemorySink::new(alloc, 1_000_000, Vec::new(alloc))?;
    let (bytes, report) = called(rt, alloc, source, sink)?;
    Ok((bytes, report.status))
}

/// What a run of what a source gives comes to: what the sink then holds, and the report.
pub(crate) fn called<R: Threads + Wait + Sync>(
    rt: &R,
    alloc: Global,
    source: MemorySource,
    sink: MemorySink,
) -> Result<(Vec<u8>, Report), AllocError> {
    let words = words_of(alloc)?;
    let mut program = source;
    let mut second = MemorySource::new(Vec::new(alloc), 1, Vec::new(alloc));
    let mut out = sink;
    let report = prolog_command(
        rt,
        alloc,
        &words,
        &mut program,
        &mut second,
        &mut out,
        &NoGate,
    );
    Ok((Vec::from_slice(alloc, out.bytes())?, report))
}

/// The words that run a program.
fn words_of(alloc: Global) -> Result<Words, AllocError> {
    let mut words = Words::new(alloc);
    for text in RUN {
        words.push(text.to_string(alloc)?)?;
    }
    Ok(words)
}

/// A piece of text so many times, behind a text.
pub(crate) fn repeated(
    alloc: Global,
    text: &mut Vec<u8>,
    piece: &str,
    times: usize,
) -> Result<(), AllocError> {
    for _ in 0..times {
        text.extend_from_slice(piece.as_bytes())?;
    }
    Ok(())
}
