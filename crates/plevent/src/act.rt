//! The entries of the journal.
ghost use Rattle.std.specs.Prelude.{◌≡◌, IfOk};

use crate::id::{ThreadId, WorkerId};
use crate::request::ThreadEnd;
use crate::update::Batch;
use std::alloc::{AllocError, Global};

/// What an entry says.
#[derive(Drop)]
pub enum Act {
    /// The thread that the entry names is started, by the entry's worker.
    Start,
    /// These updates are made.
    Batch(Batch),
    /// The thread ends.
    End(ThreadEnd),
    /// The thread ends the run, with this number as its status.
    Halt(u8),
    /// The thread goes no further, since the run is over.
    Left,
}

/// One entry of the journal. Its place in the journal, from 0, is its time.
#[derive(Drop)]
pub struct Entry {
    /// The worker that made it; 0 for the program's first batch.
    pub worker: WorkerId,
    /// The thread that it is of; 0 for the program's first batch.
    pub thread: ThreadId,
    pub act: Act,
}

impl Act {
    /// The same act again; it shares its clauses.
    pub fn copied(&self, alloc: Global) -> Result<Act, AllocError>
        ensures { IfOk result (λ a. a ≡ self.now) }
    {
        match self {
            Act::Start => return Ok(Act::Start),
            Act::Batch(batch) => {
                let copy = batch.copied(alloc)?;
                return Ok(Act::Batch(copy));
            }
            Act::End(end) => {
                let copy = end.copied(alloc)?;
                return Ok(Act::End(copy));
            }
            Act::Halt(number) => return Ok(Act::Halt(*number)),
            Act::Left => return Ok(Act::Left),
        }
    }
}

impl Entry {
    /// The same entry again; it shares its clauses.
    pub fn copied(&self, alloc: Global) -> Result<Entry, AllocError>
        ensures { IfOk result (λ e. e ≡ self.now) }
    {
        let act = self.act.copied(alloc)?;
        Ok(Entry {
            worker: self.worker,
            thread: self.thread,
            act,
        })
    }
}
