//! What a command line makes of a text.
use plcommand::command::{Report, prolog_command};
use plio::{FileSource, MemorySink, MemorySource, NoGate, ReadError, read_all};
use plterm::error::TermError;
use plwords::words::Words;
use std::alloc::{AllocError, Global};
use std::rt::Files;
use std::sync::Wait;
use std::thread::Threads;
use thiserror::Error;

/// The most bytes of a file.
const FILE_LIMIT: usize = 16_777_216;

/// The most bytes of an output.
const OUTPUT_LIMIT: usize = 1_048_576;

/// Why cases were not checked.
#[derive(Clone, Copy, Debug, PartialEq, Eq, Error)]
pub enum Fault {
    #[error("no memory")]
    NoMemory,
    #[error("a file cannot be read")]
    Unreadable,
    #[error("the journal has what is no term")]
    NoTerm,
    #[error("this line is of no case")]
    Misplaced,
    #[error("the file ends in a case")]
    Unended,
}

impl From<AllocError> for Fault {
    fn from(_: AllocError) -> Self {
        Fault::NoMemory
    }
}

impl From<TermError> for Fault {
    fn from(error: TermError) -> Self {
        match error {
            TermError::NoMemory => Fault::NoMemory,
            TermError::Arity | TermError::NameLength => Fault::NoTerm,
        }
    }
}

/// The bytes of a file.
pub fn file<R: Files>(rt: &R, alloc: Global, path: &str) -> Result<Vec<u8>, Fault> {
    let mut source = FileSource::new(rt, Some(path));
    match read_all(alloc, &mut source, FILE_LIMIT) {
        Ok(bytes) => Ok(bytes),
        Err(ReadError::NoMemory) => Err(Fault::NoMemory),
        Err(_) => Err(Fault::Unreadable),
    }
}

/// The words of a command line.
fn words_of(alloc: Global, texts: &[String]) -> Result<Words, AllocError> {
    let mut words = Words::new(alloc);
    for text in texts {
        words.push(text.clone()?)?;
    }
    Ok(words)
}

/// What the words make of a text: the output, and the report.
fn called<R: Threads + Wait + Sync>(
    rt: &R,
    alloc: Global,
    words: &Words,
    source: MemorySource,
    sink: MemorySink,
) -> Result<(Vec<u8>, Report), AllocError> {
    let mut program = source;
    let mut second = MemorySource::new(Vec::new(alloc), 1, Vec::new(alloc));
    let mut out = sink;
    let report = prolog_command(
        rt,
        alloc,
        words,
        &mut program,
        &mut second,
        &mut out,
        &NoGate,
    );
    Ok((Vec::from_slice(alloc, out.bytes())?, report))
}

/// What the words of a command line make of a text: the output, and the report.
pub fn reported<R: Threads + Wait + Sync>(
    rt: &R,
    alloc: Global,
    words: &[String],
    text: &[u8],
) -> Result<(Vec<u8>, Report), AllocError> {
    let words = words_of(alloc, words)?;
    let source = MemorySource::new(Vec::from_slice(alloc, text)?, 4096, Vec::new(alloc));
    let sink = MemorySink::new(alloc, OUTPUT_LIMIT, Vec::new(alloc))?;
    called(rt, alloc, &words, source, sink)
}
