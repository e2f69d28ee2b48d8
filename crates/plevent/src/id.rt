//! Numbers of workers and threads, and places in the journal.
ghost use Rattle.std.specs.Prelude.{◌≡◌, ℕ, ◌<◌, ◌^◌, nat_lt};

use std::marker::Model;

/// A worker of a run, by its number, from 1 on; 0 stands by the program's first batch, which no worker makes.
#[derive(Clone, Copy, Debug, PartialEq, Eq)]
pub struct WorkerId {
    number: u32,
}

impl Model for WorkerId {
    ghost Value = { ℕ };

    ghost view = { λ w. w.number };

    ghost inverse = { λ n. record { number = n } };
}

impl WorkerId {
    /// No worker: the program's first batch is of none.
    pub const NONE: WorkerId = WorkerId { number: 0 };

    /// The first one.
    pub const FIRST: WorkerId = WorkerId { number: 1 };

    /// The worker of a number.
    pub fn new(number: u32) -> WorkerId
        ensures { result ≡ number }
    {
        WorkerId { number }
    }

    /// Its number.
    pub fn get(self) -> u32
        ensures { result ≡ self }
    {
        self.number
    }
}

/// A thread of a run, by its number, from 1 on, which main has; 0 stands by the program's first batch.
#[derive(Clone, Copy, Debug, PartialEq, Eq)]
pub struct ThreadId {
    number: u32,
}

impl Model for ThreadId {
    ghost Value = { ℕ };

    ghost view = { λ t. t.number };

    ghost inverse = { λ n. record { number = n } };
}

impl ThreadId {
    /// No thread: the program's first batch is of none, and what a worker asks for itself names none.
    pub const NONE: ThreadId = ThreadId { number: 0 };

    /// The thread that runs the program's own goals.
    pub const MAIN: ThreadId = ThreadId { number: 1 };

    /// The thread of a number.
    pub fn new(number: u32) -> ThreadId
        ensures { result ≡ number }
    {
        ThreadId { number }
    }

    /// Its number.
    pub fn get(self) -> u32
        ensures { result ≡ self }
    {
        self.number
    }
}

/// A place in the journal, from 0: the time of the entry that stands there, and of a look at all entries before it.
#[derive(Clone, Copy, Debug, PartialEq, Eq)]
pub struct JournalPlace {
    index: u64,
}

impl Model for JournalPlace {
    ghost Value = { ℕ };

    ghost view = { λ p. p.index };

    ghost inverse = { λ n. record { index = n } };
}

impl JournalPlace {
    /// The place of the first entry, before which there are none.
    pub const START: JournalPlace = JournalPlace { index: 0 };

    /// The place behind so many entries.
    #[inline(always)]
    pub fn new(entries: u64) -> JournalPlace
        ensures { result ≡ entries }
    {
        JournalPlace { index: entries }
    }

    /// How many entries stand before it.
    #[inline(always)]
    pub fn get(self) -> u64
        ensures is { result ≡ self }
        ensures few { result < 2 ^ 64 }
    {
        self.index
    }

    /// Whether it stands before another one.
    #[inline(always)]
    pub fn is_before(self, other: JournalPlace) -> bool
        ensures { result ≡ nat_lt self other }
    {
        self.index < other.index
    }
}
