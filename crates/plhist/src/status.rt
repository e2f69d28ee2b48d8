//! What a call of the program came to: its number for the system, and its words.
ghost use Rattle.std.specs.Prelude.{◌≡◌, ◌++◌, ◌∷◌, [], Some, codes, decimal, nat_eq, IfOk, option_copied};
ghost use Rattle.plevent.specs.Reading.{halted_after};
ghost use Rattle.plhist.specs.Status.{number_of, line_of, kind_text, refusal_text, status_of, status_of_end, status_after};

use crate::history::Journal;
use itoa::Buffer;
use plevent::{Act, Entry, ThreadEnd, ThreadId};
use plload::error::RefusalKind;
use std::alloc::{AllocError, Global};

/// What a call came to.
#[derive(Clone, Copy, PartialEq, Eq)]
pub enum Status {
    /// The run is over, and main ended `true`; or the command had no run.
    Done,
    /// Main ended `false`.
    Failed,
    /// Main ended with an exception that nothing caught.
    Raised,
    /// Main took all of its steps.
    Spent,
    /// A thread ended the run, with this number.
    Halted(u8),
    /// The words are no command.
    Usage,
    /// The program text is refused at this line and column, both from 1.
    Refused {
        line: u64,
        column: u64,
        kind: RefusalKind,
    },
    /// A source could not be read.
    ReadFault,
    /// A source is longer than is allowed.
    TooLong,
    /// There was no memory.
    NoMemory,
    /// The output could not be written.
    WriteFault,
}

impl Status {
    /// The number that the process ends with.
    pub fn number(&self) -> u8
        ensures { result ≡ number_of self.now }
    {
        match self {
            Status::Done => 0,
            Status::Failed => 1,
            Status::Raised => 2,
            Status::Spent => 4,
            Status::Halted(number) => *number,
            Status::Usage => 64,
            Status::Refused { .. } => 65,
            Status::ReadFault => 66,
            Status::TooLong => 67,
            Status::NoMemory => 71,
            Status::WriteFault => 74,
        }
    }

    /// The line for standard error, without its newline; none where the output tells all.
    pub fn line(&self) -> Option<&'static str>
        ensures { option_copied result ≡ line_of self.now }
    {
        match self {
            Status::Usage => Some("usage"),
            Status::ReadFault => Some("cannot read"),
            Status::TooLong => Some("too long"),
            Status::NoMemory => Some("no memory"),
            Status::WriteFault => Some("cannot write"),
            _ => None,
        }
    }
}

/// How the process ends.
#[derive(Clone, Copy)]
pub struct Ending {
    /// The line for standard error, without its newline; none where the output tells all.
    pub line: Option<&'static str>,
    /// The number that the process ends with.
    pub number: u8,
}

/// How a call ends the process, whatever it came to.
pub fn ending_of(status: Status) -> Ending
    ensures line { option_copied result.line ≡ line_of status }
    ensures number { result.number ≡ number_of status }
{
    Ending {
        line: status.line(),
        number: status.number(),
    }
}

/// The word for a kind of refusal.
pub fn kind_word(kind: RefusalKind) -> &'static str
    ensures { result.now ≡ kind_text kind }
{
    match kind {
        RefusalKind::Lex => "lex",
        RefusalKind::Syntax => "syntax",
        RefusalKind::NotCallable => "not_callable",
        RefusalKind::StaticRedefined => "static_redefined",
        RefusalKind::BadDirective => "bad_directive",
    }
}

/// The output where a program text is refused: one line.
pub fn refusal_text(
    alloc: Global,
    line: u64,
    column: u64,
    kind: RefusalKind,
) -> Result<Vec<u8>, AllocError>
    ensures { IfOk result (λ text. text.items ≡ refusal_text line column kind) }
{
    let mut buffer = Buffer::new();
    let mut text = Vec::from_slice(alloc, b"refused: line ")?;
    text.extend_from_slice(buffer.format(line).as_bytes())?;
    text.extend_from_slice(b" column ")?;
    text.extend_from_slice(buffer.format(column).as_bytes())?;
    text.extend_from_slice(b": ")?;
    text.extend_from_slice(kind_word(kind).as_bytes())?;
    text.extend_from_slice(b"\n")?;
    Ok(text)
}

/// The status of a thread's end.
fn status_of_end(end: &ThreadEnd) -> Status
    ensures { result ≡ status_of_end (Some end.now) }
{
    match end {
        ThreadEnd::True => Status::Done,
        ThreadEnd::False => Status::Failed,
        ThreadEnd::Exception(_) => Status::Raised,
        ThreadEnd::Budget => Status::Spent,
        ThreadEnd::Halt(number) => Status::Halted(*number),
    }
}

/// What an entry makes of the status of main's end.
fn status_after(entry: &Entry, before: Status) -> Status
    ensures { result ≡ status_after (nat_eq entry.now.thread 1) entry.now.act before }
{
    if entry.thread != ThreadId::MAIN {
        return before;
    }
    match &entry.act {
        Act::End(end) => status_of_end(end),
        _ => before,
    }
}

/// The number with which the run was ended, after an entry.
fn halted_after(entry: &Entry, before: Option<u8>) -> Option<u8>
    ensures { result ≡ halted_after entry.now.act before }
{
    match &entry.act {
        Act::Halt(number) => before.or(Some(*number)),
        _ => before,
    }
}

/// The status of a run: the number with which a thread has ended it, the first one counting, or else how main ended.
pub fn status_of(journal: &Journal) -> Status
    ensures { result ≡ status_of journal.now }
{
    let entries = journal.as_slice();
    let mut halted = None;
    let mut main = Status::Done;
    for entry in entries {
        halted = halted_after(entry, halted);
        main = status_after(entry, main);
    }
    match halted {
        Some(number) => Status::Halted(number),
        None => main,
    }
}
