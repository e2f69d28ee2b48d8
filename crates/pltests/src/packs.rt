//! Terms as bytes (plpack).
use crate::terms::{compared, triple};
use plpack::{UnpackError, Unpacked, pack, unpack};
use plterm::error::TermError;
use plterm::term::Term;
use std::alloc::{AllocError, Global};
use std::test::Fail;

/// The bytes of f(X, a, X), and another one.
const BYTES: &[u8] =
    b"\x03\x00\x03\x00\x01f\x00\x00\x00\x00\x00\x00\x00\x00\x00\x02\x00\x01a\x00\x00\x00\x00\x00\x00\x00\x00\x00\x09";

/// Whether a term has the bytes of f(X, a, X).
fn is_packed(alloc: Global, term: &Term) -> Result<bool, AllocError> {
    let bytes = pack(alloc, &term.root())?;
    Ok(bytes.as_slice() == &BYTES[..28])
}

/// What is found; a term and an error are told apart.
fn found_in(alloc: Global, bytes: &[u8]) -> Result<Result<Unpacked, usize>, AllocError> {
    match unpack(alloc, bytes) {
        Ok(found) => Ok(Ok(found)),
        Err(UnpackError::BadPack(place)) => Ok(Err(place)),
        Err(UnpackError::NoMemory) => Err(AllocError),
    }
}

/// Whether the bytes of f(X, a, X) are found at the front, with the number 0 for X.
fn is_unpacked(alloc: Global, bytes: &[u8]) -> Result<bool, TermError> {
    match found_in(alloc, bytes)? {
        Ok(found) => Ok(found.size == 28 && compared(alloc, &found.term, 0, 0)?.0),
        Err(_) => Ok(false),
    }
}

// The bytes are those of the format, whatever number the variable has. The term is found before another byte, and its
// variable has the number 0.
#[test]
fn packed_and_unpacked(rt: HostRuntime) -> Result<(), Fail> {
    let term = triple(rt.alloc(), 7, 7)?;
    assert!(rt; is_packed(rt.alloc(), &term)? && is_unpacked(rt.alloc(), BYTES)?);
    Ok(())
}

/// Bytes, and the place of the first bad item: one that is cut off, an unknown tag, an arity of 0 and one above 1,024, a name
/// that is no UTF-8, and a variable that leaves out a number.
const BAD: [(&[u8], usize); 6] = [
    (b"", 0),
    (b"\x03\x00\x01\x00\x01f\x04", 6),
    (b"\x03\x00\x00\x00\x01f", 0),
    (b"\x03\x04\x01\x00\x01f", 0),
    (b"\x03\x00\x01\x00\x01f\x02\x00\x01\xff", 6),
    (b"\x00\x00\x00\x00\x00\x00\x00\x00\x01", 0),
];

/// Whether the first bad item has this place.
fn is_bad(alloc: Global, bytes: &[u8], place: usize) -> Result<bool, AllocError> {
    let found = found_in(alloc, bytes)?;
    Ok(matches!(found, Err(at) if at == place))
}

// The term without its last byte is cut off too.
#[test]
fn bad_items(rt: HostRuntime) -> Result<(), Fail> {
    assert!(rt; is_bad(rt.alloc(), &BYTES[..27], 19)?);
    for (bytes, place) in BAD.iter() {
        assert!(rt; is_bad(rt.alloc(), bytes, *place)?, "{place}");
    }
    Ok(())
}
