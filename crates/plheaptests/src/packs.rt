//! Values of the heap as packed bytes (plpacked).
ghost use Rattle.std.specs.Prelude.{ℕ, ◌≤◌};
ghost use Rattle.plcells.specs.Store.{IsFresh};

use platoms::names::Names;
use plcells::heap::Heap;
use plpack::UnpackError;
use plpacked::{put_bytes, take_packed};
use std::alloc::{AllocError, Global};
use std::test::Fail;

/// f(X, a, X).
const TWICE: &[u8] =
    b"\x03\x00\x03\x00\x01f\x00\x00\x00\x00\x00\x00\x00\x00\x00\x02\x00\x01a\x00\x00\x00\x00\x00\x00\x00\x00\x00";

/// f(g(X), h(Y, X)).
const SEVERAL: &[u8] =
    b"\x03\x00\x02\x00\x01f\x03\x00\x01\x00\x01g\x00\x00\x00\x00\x00\x00\x00\x00\x00\x03\x00\x02\x00\x01h\x00\x00\x00\x00\x00\x00\x00\x00\x01\x00\x00\x00\x00\x00\x00\x00\x00\x00";

/// The least and the greatest integer.
const INTEGERS: &[u8] =
    b"\x03\x00\x02\x00\x01f\x01\x80\x00\x00\x00\x00\x00\x00\x00\x01\x7f\xff\xff\xff\xff\xff\xff\xff";

/// An atom past ASCII.
const ATOM: &[u8] = b"\x02\x00\x02\xc3\xa9";

/// Whether bytes that are put in a heap and taken are the same again, or the place of the first bad item.
fn again_in(alloc: Global, heap: &mut Heap, bytes: &[u8]) -> Result<Result<bool, usize>, AllocError>
    requires fresh { (n : ℕ) → 0 ≤ n → IsFresh heap.old n }
{
    match put_bytes(alloc, heap, bytes, 0) {
        Ok(put) => {
            let taken = take_packed(alloc, heap, put.value)?;
            Ok(Ok(taken.bytes() == bytes))
        }
        Err(UnpackError::BadPack(place)) => Ok(Err(place)),
        Err(UnpackError::NoMemory) => Err(AllocError),
    }
}

/// The same of a heap without cells.
fn again(alloc: Global, bytes: &[u8]) -> Result<Result<bool, usize>, AllocError> {
    let mut heap = Heap::new(alloc, Names::new(alloc));
    again_in(alloc, &mut heap, bytes)
}

/// Whether bytes that are put and taken are the same again.
fn goes_round(alloc: Global, bytes: &[u8]) -> Result<bool, AllocError> {
    Ok(again(alloc, bytes)?.unwrap_or(false))
}

/// Whether each of the terms is the same again.
fn terms(alloc: Global) -> Result<[bool; 4], AllocError> {
    Ok([
        goes_round(alloc, TWICE)?,
        goes_round(alloc, SEVERAL)?,
        goes_round(alloc, INTEGERS)?,
        goes_round(alloc, ATOM)?,
    ])
}

#[test]
fn terms_go_round(rt: HostRuntime) -> Result<(), Fail> {
    let found = terms(rt.alloc())?;
    assert!(rt; found == [true; 4], "{found:?}");
    Ok(())
}

/// Adds a list of so many integers.
fn put_list(bytes: &mut Vec<u8>, count: u64) -> Result<(), AllocError> {
    for i in 0..count {
        bytes.extend_from_slice(b"\x03\x00\x02\x00\x01.\x01")?;
        bytes.extend_from_slice(&i.to_be_bytes())?;
    }
    bytes.extend_from_slice(b"\x02\x00\x02[]")
}

/// Whether a list of so many integers is the same again.
fn list(alloc: Global, count: u64) -> Result<bool, AllocError> {
    let mut bytes = Vec::new(alloc);
    put_list(&mut bytes, count)?;
    goes_round(alloc, bytes.as_slice())
}

#[test]
fn lists_go_round(rt: HostRuntime) -> Result<(), Fail> {
    assert!(rt; list(rt.alloc(), 5000)?);
    Ok(())
}

// The last variable of f(X, a, X) is cut off.
#[test]
fn refused_where_the_first_bad_item_begins(rt: HostRuntime) -> Result<(), Fail> {
    assert!(rt; again(rt.alloc(), &TWICE[..27])? == Err(19));
    Ok(())
}
