//! The memory that the process takes.
use crate::runs::{Fault, file};
use crate::tally::Tally;
use std::alloc::Global;
use std::rt::Files;

/// The number of kilobytes that a text spells.
fn kilobytes(text: &str) -> Option<u64> {
    let number = text.trim().strip_suffix(" kB")?;
    number.parse::<u64>().ok()
}

/// The most memory that a process has taken, by what Linux tells of it.
fn peak_in(status: &[u8]) -> Option<u64> {
    let text = std::str::from_utf8(status).ok()?;
    for line in text.lines() {
        if let Some(told) = line.strip_prefix("VmHWM:") {
            return kilobytes(told);
        }
    }
    None
}

/// The most kilobytes that the process has taken so far; 0 where the system does not tell it.
fn peak<R: Files>(rt: &R, alloc: Global) -> Result<u64, Fault> {
    match file(rt, alloc, "/proc/self/status") {
        Ok(status) => Ok(peak_in(&status).unwrap_or(0)),
        Err(Fault::NoMemory) => Err(Fault::NoMemory),
        Err(_) => Ok(0),
    }
}

/// Takes a mark on memory: behind an empty one how much the process has taken is noted, and behind one with a number, whether it has
/// taken at most so many kilobytes more since then.
pub fn check_memory<R: Files>(
    rt: &R,
    alloc: Global,
    tally: &mut Tally,
    most: &str,
) -> Result<(), Fault> {
    let now = peak(rt, alloc)?;
    if most.is_empty() {
        tally.note_memory(now);
        return Ok(());
    }
    match most.parse::<u64>() {
        Ok(most) => Ok(tally.check_memory(now, most)?),
        Err(_) => Err(Fault::Misplaced),
    }
}
