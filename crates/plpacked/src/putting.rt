//! Packed bytes to values.
ghost use Rattle.std.specs.Prelude.{◌≡◌, ◌≤◌, ℕ, take, IfErr, IfOk, OnErr};
ghost use Rattle.plterm.specs.Variables.{copied};
ghost use Rattle.plpack.specs.Packing.{packed};
ghost use Rattle.plpack.specs.Faults.{Tells, TellsNone};
ghost use Rattle.plcells.specs.Store.{renamed, value, IsFresh, Keeps, Preserves};
ghost use Rattle.plpacked.specs.Putting.{PutsPacked, PutsWhole};

use crate::unfinished::{Stage, Unfinished};
use plcells::cell::Cell;
use plcells::heap::Heap;
use plpack::item::next_item;
use plpack::shared::Packed;
use plpack::unpacking::UnpackError;
use std::alloc::{AllocError, Global};

/// A packed term that was put: its value, how many of the bytes are its own, and how many variables it has.
#[derive(Clone, Copy)]
pub struct Put {
    pub value: Cell,
    pub size: usize,
    pub variables: u64,
}

/// Puts the term whose bytes begin the bytes; after an `Err` some of its values may be there.
fn put_all(alloc: Global, heap: &mut Heap, bytes: &[u8], number: u64) -> Result<Put, UnpackError>
    requires fresh { (n : ℕ) → number ≤ n → IsFresh heap.old n }
    ensures ok { IfOk result (PutsPacked heap.old heap.new bytes.now number) }
    ensures fault { IfErr result (Tells bytes.now) }
    ensures none { IfErr result (TellsNone bytes.now) }
    ensures keeps { Keeps heap.old heap.new }
{
    let mut term = Unfinished::new(alloc, number);
    let mut rest = bytes;
    'steps: loop {
        match term.stage() {
            Stage::Full(innermost) => {
                term.close(heap, innermost)?;
                continue;
            }
            Stage::Waiting => {
                let seen = term.variables.len() as u64;
                let Some(next) = next_item(alloc, rest, seen)? else {
                    return Err(UnpackError::BadPack(bytes.len() - rest.len()));
                };
                rest = next.behind;
                term.add(heap, next.node)?;
            }
            Stage::Whole(value) => {
                return Ok(Put {
                    value,
                    size: bytes.len() - rest.len(),
                    variables: term.variables.len() as u64,
                });
            }
        }
    }
}

/// Puts the term whose bytes begin the bytes, as `unpack` reads it, over new variables with the numbers from one on, by first occurrence, in
/// time linear in its bytes. After an `Err` there may be more names, and nothing else. Where the numbers of its variables would pass 64 bits,
/// it is told as want of memory.
pub fn put_bytes(
    alloc: Global,
    heap: &mut Heap,
    bytes: &[u8],
    number: u64,
) -> Result<Put, UnpackError>
    requires fresh { (n : ℕ) → number ≤ n → IsFresh heap.old n }
    ensures ok { IfOk result (PutsPacked heap.old heap.new bytes.now number) }
    ensures preserves { Preserves heap.old heap.new }
    ensures boundary { heap.new.boundary ≡ heap.old.boundary }

    // Packed again it is the same bytes.
    ensures again { IfOk result (λ put. packed (value heap.new put.value) ≡ take put.size bytes.now) }

    // The place is that of the first bad item, and then no term's bytes begin the bytes.
    ensures fault { IfErr result (Tells bytes.now) }
    ensures none { IfErr result (TellsNone bytes.now) }
    ensures err { OnErr result (heap.new ≡ renamed heap.old heap.new.names) }
{
    let boundary = heap.boundary();
    let mark = heap.mark();
    match put_all(alloc, heap, bytes, number) {
        Ok(put) => {
            heap.forget(boundary);
            Ok(put)
        }
        Err(e) => {
            heap.cut_back(mark, boundary);
            Err(e)
        }
    }
}

/// Puts a packed term over new variables with the numbers from one on, by first occurrence, in time linear in its bytes. After an `Err`
/// there may be more names, and nothing else. Where the numbers of its variables would pass 64 bits, it is told as want of memory.
pub fn put_packed(
    alloc: Global,
    heap: &mut Heap,
    term: &Packed,
    number: u64,
) -> Result<Put, AllocError>
    requires fresh { (n : ℕ) → number ≤ n → IsFresh heap.old n }
    ensures ok { IfOk result (λ put. PutsWhole heap.old heap.new term.now number put) }
    ensures preserves { Preserves heap.old heap.new }
    ensures boundary { heap.new.boundary ≡ heap.old.boundary }

    // Taken again it is the same packed term.
    ensures again { IfOk result (λ put. copied 0 (value heap.new put.value) ≡ term.now) }
    ensures err { OnErr result (heap.new ≡ renamed heap.old heap.new.names) }
{
    match put_bytes(alloc, heap, term.bytes(), number) {
        Ok(put) => Ok(put),
        Err(UnpackError::NoMemory) => Err(AllocError),
        Err(UnpackError::BadPack(_)) => unreachable!(),
    }
}
