//! Terms from bytes.
ghost use Rattle.std.specs.Prelude.{◌≡◌, ◌≤◌, length, take, IfErr, IfOk};
ghost use Rattle.plterm.specs.Variables.{copied};
ghost use Rattle.plpack.specs.Packing.{packed, IsPackable};
ghost use Rattle.plpack.specs.Faults.{Tells, TellsNone};
ghost use Rattle.plpack.specs.declared.unpacking.UnpackError.TheVariants.{NoMemory};

use crate::item::next_item;
use plterm::term::Term;
use std::alloc::{AllocError, AllocFailed, Global};

/// Why bytes could not be unpacked.
#[derive(Clone, Copy, Debug, PartialEq, Eq)]
pub enum UnpackError {
    /// No term's bytes begin the bytes. The place is where the first item that fits none begins: one that is cut off, or has an
    /// unknown tag, an arity of 0 or above 1,024, a name that is no UTF-8, or a variable that leaves out a number.
    BadPack(usize),
    NoMemory,
}

impl From<AllocError> for UnpackError {
    ghost from_gives = { λ _ e. e ≡ NoMemory };

    fn from(_error: AllocError) -> UnpackError {
        UnpackError::NoMemory
    }
}

impl<T: Drop> From<AllocFailed<T>> for UnpackError {
    ghost from_gives = { λ _ e. e ≡ NoMemory };

    fn from(_error: AllocFailed<T>) -> UnpackError {
        UnpackError::NoMemory
    }
}

/// A term that was unpacked, and how many of the bytes are its own.
#[derive(Drop)]
pub struct Unpacked {
    pub term: Term,
    pub size: usize,
}

/// The term whose bytes begin the bytes, in time linear in how many they are. Others may follow them.
pub fn unpack(alloc: Global, bytes: &[u8]) -> Result<Unpacked, UnpackError>
    // So many bytes are the term's.
    ensures size { IfOk result (λ found. found.size ≤ length bytes.now) }
    ensures bytes { IfOk result (λ found. take found.size bytes.now ≡ packed found.term) }
    ensures limits { IfOk result (λ found. IsPackable found.term) }

    // Its variables are 0, 1, .. by first occurrence.
    ensures numbered { IfOk result (λ found. copied 0 found.term ≡ found.term) }

    // The place is that of the first bad item, and then no term's bytes begin the bytes.
    ensures fault { IfErr result (Tells bytes.now) }
    ensures none { IfErr result (TellsNone bytes.now) }
{
    let mut nodes = Vec::new(alloc);
    let mut seen: u64 = 0;
    // Each item may ask for 1,024 more: 64 bits need not hold them.
    let mut missing: u128 = 1;
    let mut rest = bytes;
    'items: while missing > 0 {
        let bad = UnpackError::BadPack(bytes.len() - rest.len());
        let next = next_item(alloc, rest, seen)?.ok_or(bad)?;
        missing = missing - 1 + next.node.arity() as u128;
        seen = next.seen;
        rest = next.behind;
        nodes.push(next.node)?;
    }
    Ok(Unpacked {
        term: Term::from_prefix(nodes),
        size: bytes.len() - rest.len(),
    })
}
