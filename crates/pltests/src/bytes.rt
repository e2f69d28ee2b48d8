//! Sources and sinks (plio).
use plio::{
    Failed, FileSource, MemorySink, MemorySource, ReadError, Source, StdSink, read_all, write_all,
};
use std::alloc::{AllocError, Global};
use std::test::Fail;

/// What reading a text whole gives, from memory, in pieces of at least one byte and up to 32 bits of them.
fn read(
    alloc: Global,
    text: &str,
    piece: usize,
    fails: &[u64],
    limit: u32,
) -> Result<Vec<u8>, ReadError> {
    let piece = piece.max(1);
    let limit = limit as usize;
    let bytes = Vec::from_slice(alloc, text.as_bytes())?;
    let fails = Vec::from_slice(alloc, fails)?;
    let mut source = MemorySource::new(bytes, piece, fails);
    read_all(alloc, &mut source, limit)
}

const TEXT: &str = "a.\nb.\nc :- x,";

/// A text, its pieces, the calls that fail, a limit, and the error, where there is one.
type ReadRow = (&'static str, usize, &'static [u64], u32, Option<ReadError>);

const READ: [&[ReadRow]; 2] = [
    &[
        (TEXT, 1, &[], 13, None),
        (TEXT, 4, &[], 13, None),
        (TEXT, 13, &[], 14, None),
        (TEXT, 5000, &[], 16_777_216, None),
        ("", 1, &[], 0, None),
    ],
    &[
        (TEXT, 4, &[1], 100, Some(ReadError::ReadFault)),
        (TEXT, 4, &[2], 100, Some(ReadError::ReadFault)),
        (TEXT, 4, &[5], 100, Some(ReadError::ReadFault)),
        (TEXT, 4, &[6], 12, Some(ReadError::TooLong)),
        (TEXT, 13, &[1], 12, Some(ReadError::ReadFault)),
        (TEXT, 13, &[2], 12, Some(ReadError::TooLong)),
        (TEXT, 1, &[1], 0, Some(ReadError::ReadFault)),
        (TEXT, 1, &[9], 0, Some(ReadError::TooLong)),
    ],
];

/// Whether reading gives the whole text, or has the error.
fn is_read(alloc: Global, row: &ReadRow) -> bool {
    let (text, piece, fails, limit, error) = *row;
    match read(alloc, text, piece, fails, limit) {
        Ok(bytes) => error.is_none() && bytes.as_slice() == text.as_bytes(),
        Err(found) => error == Some(found),
    }
}

/// The place of the first row of which that is not so.
fn first_not_read(alloc: Global, rows: &[ReadRow]) -> Option<usize> {
    for (place, row) in rows.iter().enumerate() {
        if !is_read(alloc, row) {
            return Some(place);
        }
    }
    None
}

// A text is read whole from its pieces, or refused.
#[test]
fn reads(rt: HostRuntime) {
    for rows in READ {
        assert_eq!(rt; first_not_read(rt.alloc(), rows), None);
    }
}

/// The room of a sink, the call that fails, what it then holds, and whether that is all.
type WriteRow = (usize, u64, &'static str, bool);

const WRITTEN: [WriteRow; 4] = [
    (9, 2, "seven\n", true),
    (6, 2, "seven\n", true),
    (4, 9, "seve", false),
    (9, 1, "", false),
];

/// Whether a sink holds what its row tells after a text was written to it.
fn is_written(alloc: Global, row: &WriteRow) -> Result<bool, AllocError> {
    let (room, call, held, want) = *row;
    let fails = Vec::from_slice(alloc, &[call])?;
    let mut sink = MemorySink::new(alloc, room, fails)?;
    let whole = write_all(&mut sink, b"seven\n").is_ok();
    Ok(whole == want && sink.bytes() == held.as_bytes())
}

#[test]
fn writes(rt: HostRuntime) -> Result<(), Fail> {
    for row in WRITTEN.iter() {
        assert!(rt; is_written(rt.alloc(), row)?, "room {}", row.0);
    }
    Ok(())
}

/// Files, where none is the standard input, and what reading eight bytes of each gives.
const FILES: [(Option<&str>, Result<usize, Failed>); 4] = [
    (None, Ok(0)),
    (Some("/dev/null"), Ok(0)),
    (Some("/dev/zero"), Ok(8)),
    (Some("/no/file"), Err(Failed)),
];

#[test]
fn reaches_outside(rt: HostRuntime) {
    let mut buf = [0u8; 8];
    for (path, found) in FILES {
        assert_eq!(rt; FileSource::new(&rt, path).read(&mut buf), found);
    }
    assert_eq!(rt; write_all(&mut StdSink::new(&rt), b"written\n"), Ok(()));
}
