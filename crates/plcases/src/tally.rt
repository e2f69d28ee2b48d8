//! How many cases there are, and which are wrong.
use std::alloc::{AllocError, Global};
use std::fmt::Write;

/// Cases that were checked, and what is told of those that came to anything else than they say.
#[derive(Drop)]
pub struct Tally {
    alloc: Global,
    path: String,
    line: u64,
    count: u64,
    /// How many kilobytes the process had taken where that was noted.
    memory: u64,
    text: String,
}

/// What a case comes to: the number that the process ends with and the output, or what a run adds to the journal.
#[derive(Drop)]
pub enum Came {
    Report { output: Vec<u8>, status: u8 },
    Journal(Vec<u8>),
}

impl Came {
    /// Whether it is the same.
    fn is(&self, other: &Came) -> bool {
        match (self, other) {
            (
                Came::Report { output, status },
                Came::Report {
                    output: others,
                    status: number,
                },
            ) => output.as_slice() == others.as_slice() && *status == *number,
            (Came::Journal(text), Came::Journal(others)) => text.as_slice() == others.as_slice(),
            _ => false,
        }
    }

    /// Adds it as text.
    fn tell(&self, alloc: Global, told: &mut String) -> Result<(), AllocError> {
        match self {
            Came::Report { output, status } => {
                let text = String::from_utf8_lossy(alloc, output.as_slice())?;
                write!(told, "status {status}\n{text}")
            }
            Came::Journal(text) => {
                let text = String::from_utf8_lossy(alloc, text.as_slice())?;
                write!(told, "journal\n{text}")
            }
        }
    }
}

impl Tally {
    /// No cases.
    pub fn new(alloc: Global) -> Tally {
        Tally {
            alloc,
            path: String::new(alloc),
            line: 0,
            count: 0,
            memory: 0,
            text: String::new(alloc),
        }
    }

    /// How many cases were checked.
    pub fn count(&self) -> u64 {
        self.count
    }

    /// The line that was read last.
    pub fn line(&self) -> u64 {
        self.line
    }

    /// What is told of the wrong ones.
    pub fn text(&self) -> &str {
        self.text.as_str()
    }

    /// Whether none is wrong.
    pub fn is_clean(&self) -> bool {
        self.text.is_empty()
    }

    /// Begins a file.
    pub fn begin(&mut self, path: &str) -> Result<(), AllocError> {
        self.path = String::from_str(self.alloc, path)?;
        self.line = 0;
        Ok(())
    }

    /// The file that is read.
    pub fn path(&self) -> &str {
        self.path.as_str()
    }

    /// Counts a line that is read.
    pub fn next_line(&mut self) {
        self.line = self.line.saturating_add(1);
    }

    /// Counts a case that begins in a line, and tells of it where it came to anything else than is wanted.
    pub fn add(&mut self, line: u64, wanted: &Came, came: &Came) -> Result<(), AllocError> {
        self.count = self.count.saturating_add(1);
        if came.is(wanted) {
            return Ok(());
        }
        let path = self.path.as_str();
        write!(self.text, "{path}:{line}: wanted ")?;
        wanted.tell(self.alloc, &mut self.text)?;
        self.text.push_str("came ")?;
        came.tell(self.alloc, &mut self.text)
    }

    /// Notes how many kilobytes the process has taken.
    pub fn note_memory(&mut self, now: u64) {
        self.memory = now;
    }

    /// Tells where the process has taken more kilobytes since that was noted than it may.
    pub fn check_memory(&mut self, now: u64, most: u64) -> Result<(), AllocError> {
        let more = now.saturating_sub(self.memory);
        if more <= most {
            return Ok(());
        }
        let path = self.path.as_str();
        let line = self.line;
        writeln!(self.text, "{path}:{line}: took {more} kilobytes more")
    }
}
