//! A history: the journal, and the run of each thread.
ghost use Rattle.std.specs.Prelude.{◌≡◌};

use plevent::{Entry, JournalPlace, ThreadEnd, ThreadId};
use std::marker::Model;

/// The places of a thread's items, in their order: for each view that it took and each request that
/// was answered, the number of entries that the journal had then.
#[derive(Drop)]
pub struct Places {
    list: Vec<JournalPlace>,
}

impl Model for Places {
    ghost use Rattle.std.specs.Prelude.{List, ℕ};

    ghost Value = { List ℕ };

    ghost view = { λ a. a.list.items };
}

impl Places {
    pub fn new(list: Vec<JournalPlace>) -> Places
        ensures { result ≡ list.items }
    {
        Places { list }
    }

    pub fn as_slice(&self) -> &[JournalPlace]
        ensures { result.now ≡ self.now }
    {
        self.list.as_slice()
    }
}

/// The bytes that a thread wrote.
#[derive(Drop)]
pub struct Output {
    bytes: Vec<u8>,
}

impl Model for Output {
    ghost use Rattle.std.specs.Prelude.{List, ℕ};

    ghost Value = { List ℕ };

    ghost view = { λ a. a.bytes.items };
}

impl Output {
    pub fn new(bytes: Vec<u8>) -> Output
        ensures { result ≡ bytes.items }
    {
        Output { bytes }
    }

    pub fn as_slice(&self) -> &[u8]
        ensures { result.now ≡ self.now }
    {
        self.bytes.as_slice()
    }
}

/// How a thread's run stands when the whole run is over.
#[derive(Drop)]
pub enum RunEnd {
    /// It came to this end of its own.
    Ended(ThreadEnd),
}

/// What a thread did.
#[derive(Drop)]
pub struct Run {
    pub thread: ThreadId,
    pub places: Places,
    /// The steps that it took.
    pub steps: u64,
    pub end: RunEnd,
    pub output: Output,
}

/// The runs of all threads, by rising number.
#[derive(Drop)]
pub struct Runs {
    list: Vec<Run>,
}

impl Model for Runs {
    ghost use Rattle.std.specs.Prelude.{List};
    ghost use Rattle.plhist.specs.declared.history.Run.{Run};
    ghost use Rattle.std.specs.Coded.{coded_list};
    ghost use Rattle.plhist.specs.contracts.history.Run.{the_row};

    ghost Value = { List Run };

    ghost coded = { coded_list the_row.coded };

    ghost view = { λ a. a.list.items };
}

impl Runs {
    pub fn new(list: Vec<Run>) -> Runs
        ensures { result ≡ list.items }
    {
        Runs { list }
    }

    pub fn as_slice(&self) -> &[Run]
        ensures { result.now ≡ self.now }
    {
        self.list.as_slice()
    }
}

/// The entries that all threads made, in their order.
#[derive(Drop)]
pub struct Journal {
    entries: Vec<Entry>,
}

impl Model for Journal {
    ghost use Rattle.std.specs.Prelude.{List};
    ghost use Rattle.plevent.specs.declared.act.Entry.{Entry};
    ghost use Rattle.std.specs.Coded.{coded_list};
    ghost use Rattle.plevent.specs.contracts.act.Entry.{the_row};

    ghost Value = { List Entry };

    ghost coded = { coded_list the_row.coded };

    ghost view = { λ a. a.entries.items };
}

impl Journal {
    pub fn new(entries: Vec<Entry>) -> Journal
        ensures { result ≡ entries.items }
    {
        Journal { entries }
    }

    pub fn as_slice(&self) -> &[Entry]
        ensures { result.now ≡ self.now }
    {
        self.entries.as_slice()
    }
}

/// A whole run.
#[derive(Drop)]
pub struct History {
    pub journal: Journal,
    pub runs: Runs,
}
