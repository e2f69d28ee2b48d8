//! Faults of the source and of the sink, and too long a text.
use crate::command::{called, repeated, told};
use plcommand::command::{Report, TEXT_LIMIT};
use plhist::Status;
use plio::{MemorySink, MemorySource};
use std::alloc::{AllocError, Global};
use std::sync::Wait;
use std::test::Fail;
use std::thread::Threads;

/// Runs a text with a source and a sink that fail at these calls.
fn with_faults<R: Threads + Wait + Sync>(
    rt: &R,
    alloc: Global,
    text: &str,
    reads: &[u64],
    writes: &[u64],
) -> Result<(Vec<u8>, Report), AllocError> {
    let bytes = Vec::from_slice(alloc, text.as_bytes())?;
    let source = MemorySource::new(bytes, 4, Vec::from_slice(alloc, reads)?);
    let sink = MemorySink::new(alloc, 1000, Vec::from_slice(alloc, writes)?)?;
    called(rt, alloc, source, sink)
}

// A fault of the source, of the sink, and too long a text.
#[test]
fn faults(rt: HostRuntime) -> Result<(), Fail> {
    let alloc = rt.alloc();
    let (bytes, report) = with_faults(&rt, alloc, "a.\nb.\nc :- x,", &[2], &[])?;
    assert!(rt; bytes.is_empty() && report.status == Status::ReadFault && report.history.is_none());
    let (bytes, report) = with_faults(
        &rt,
        alloc,
        "main :- write(hello), nl. :- initialization(main).",
        &[],
        &[1],
    )?;
    assert!(rt;
        bytes.is_empty() && report.status == Status::WriteFault && report.history.is_some()
    );
    let mut text = Vec::new(alloc);
    repeated(alloc, &mut text, "\n", TEXT_LIMIT)?;
    let (bytes, ended) = told(&rt, alloc, &text)?;
    assert!(rt; bytes.as_slice() == b"% thread 1 main: true\n".as_slice() && ended == Status::Done);
    text.push(b'\n')?;
    let (bytes, ended) = told(&rt, alloc, &text)?;
    assert!(rt; bytes.is_empty() && ended == Status::TooLong);
    Ok(())
}
