//! What a thread asks of the world, and what it is told.
ghost use Rattle.std.specs.Prelude.{◌≡◌, IfOk};

use crate::id::ThreadId;
use crate::update::{Batch, ClauseName};
use plterm::name::Name;
use plterm::term::Term;
use std::alloc::{AllocError, Global};

/// How a thread came to its end.
#[derive(Drop)]
pub enum ThreadEnd {
    /// Its goal had a solution.
    True,
    /// Its goal failed.
    False,
    /// It raised this ball, which nothing caught.
    Exception(Term),
    /// It took all of its steps.
    Budget,
    /// It ended the run, with this number as its status.
    Halt(u8),
}

impl ThreadEnd {
    /// The same end again.
    pub fn copied(&self, alloc: Global) -> Result<ThreadEnd, AllocError>
        ensures { IfOk result (λ e. e ≡ self.now) }
    {
        match self {
            ThreadEnd::True => return Ok(ThreadEnd::True),
            ThreadEnd::False => return Ok(ThreadEnd::False),
            ThreadEnd::Budget => return Ok(ThreadEnd::Budget),
            ThreadEnd::Halt(number) => return Ok(ThreadEnd::Halt(*number)),
            ThreadEnd::Exception(ball) => {
                let copy = ball.copied(alloc)?;
                return Ok(ThreadEnd::Exception(copy));
            }
        }
    }
}

/// What is asked.
#[derive(Drop)]
pub enum Request {
    /// A worker asks for a thread that is created and not started.
    Start,
    /// A thread publishes its updates as one batch.
    Publish(Batch),
    /// A thread erases a clause that is alive.
    EraseOne(ClauseName),
    /// A thread has ended, and not by ending the run.
    Finish(ThreadEnd),
    /// A thread ends the run, with this number as its status.
    HaltRun(u8),
    /// A worker says that a thread which it started goes no further, since the run is over.
    Leave,
}

impl Request {
    /// The same request again.
    pub fn copied(&self, alloc: Global) -> Result<Request, AllocError>
        ensures { IfOk result (λ q. q ≡ self.now) }
    {
        match self {
            Request::Start => return Ok(Request::Start),
            Request::Publish(batch) => {
                let copy = batch.copied(alloc)?;
                return Ok(Request::Publish(copy));
            }
            Request::EraseOne(name) => return Ok(Request::EraseOne(*name)),
            Request::Finish(end) => {
                let copy = end.copied(alloc)?;
                return Ok(Request::Finish(copy));
            }
            Request::HaltRun(number) => return Ok(Request::HaltRun(*number)),
            Request::Leave => return Ok(Request::Leave),
        }
    }
}

/// The answer to a request.
#[derive(Drop)]
pub enum Reply {
    /// This thread is started now. Main has no goal of its own: it runs the program's.
    Started {
        number: ThreadId,
        alias: Option<Name>,
        goal: Option<Term>,
    },
    /// Each thread was started, and has ended.
    RunOver,
    /// A thread has ended the run.
    Stopped,
    /// Not now: ask this again.
    NotYet(Request),
    /// The batch stands in the journal.
    Published,
    /// The clause was alive, and is erased.
    Erased,
    /// The clause is not alive.
    Gone,
    /// It is done.
    Done,
    /// The world is stopped, and serves nothing more.
    Shut,
}
