//! What a journal says of its threads.
ghost use Rattle.std.specs.Prelude.{◌≡◌, ◌&&◌, ◌+◌, ◌<◌, ◌^◌, Some, None, MatchOption, find, position, not, IfOk, true, ℕ, List};
ghost use Rattle.plevent.specs.declared.act.Act.{Act};
ghost use Rattle.plevent.specs.declared.update.Update.{Update};
ghost use Rattle.std.specs.List.{list_any};
ghost use Rattle.std.specs.Option.{option_copied, is_some};
ghost use Rattle.plevent.specs.Reading.{changed_first, is_thread, stand, blank};
ghost use Rattle.plevent.specs.Rows.{is_new, is_settled, is_halted, is_over, runs, stays};
ghost use Rattle.plevent.specs.First.{NoneFirst, FirstAt};

use crate::id::{ThreadId, WorkerId};
use crate::request::ThreadEnd;
use plterm::name::Name;
use plterm::term::Term;
use std::alloc::{AllocError, Global};
use std::marker::Model;

/// What a journal says of one thread.
#[derive(Drop)]
pub struct Thread {
    /// Its number; main has 1.
    pub number: ThreadId,
    pub alias: Option<Name>,
    /// The goal that it was created with; none of main.
    pub goal: Option<Term>,
    /// The worker that started it, if it is started.
    pub worker: Option<WorkerId>,
    /// Its end, if it has ended.
    pub ended: Option<ThreadEnd>,
    /// Whether it goes no further, since the run is over.
    pub left: bool,
}

/// All threads created, by rising number.
#[derive(Drop)]
pub struct Threads {
    rows: Vec<Thread>,
}

impl Model for Threads {
    ghost use Rattle.std.specs.Prelude.{List};
    ghost use Rattle.plevent.specs.declared.standing.Thread.{Thread};
    ghost use Rattle.std.specs.Coded.{coded_list};
    ghost use Rattle.plevent.specs.contracts.standing.Thread.{the_row};

    ghost Value = { List Thread };

    ghost coded = { coded_list the_row.coded };

    ghost view = { λ a. a.rows.items };
}

/// What a journal says, but for its clauses.
#[derive(Drop)]
pub struct Standing {
    /// How many entries it has.
    pub size: u64,
    pub threads: Threads,
    /// The number with which a thread has ended the run, if one has: the first one counts.
    pub halted: Option<u8>,
}

/// Whether a thread was not started, or has not ended.
fn is_open(thread: &Thread) -> bool
    ensures { result ≡ not (is_settled thread.now) }
{
    !(thread.worker.is_some() && thread.ended.is_some())
}

impl Threads {
    /// The first thread that is not started.
    pub fn first_new(&self) -> Option<&Thread>
        ensures { option_copied result ≡ find is_new self.now }
    {
        self.rows.iter().find(|t| t.worker.is_none())
    }

    /// Whether a thread is started and has not ended.
    pub fn runs(&self, number: ThreadId) -> bool
        ensures { result ≡ list_any (λ x. is_thread number x && is_some x.worker && not (is_some x.ended)) self.now }
    {
        self.rows.iter().any(|x| x.number == number && x.worker.is_some() && !x.ended.is_some())
    }

    /// Whether a thread is started, and has neither ended nor left.
    pub fn stays(&self, number: ThreadId) -> bool
        ensures { result ≡ list_any (λ x. is_thread number x && is_some x.worker && not (is_some x.ended) && not x.left) self.now }
    {
        self.rows.iter().any(|x| x.number == number
            && x.worker.is_some()
            && !x.ended.is_some()
            && !x.left)
    }

    /// Whether each thread was started and has ended.
    pub fn are_settled(&self) -> bool
        ensures { result ≡ not (list_any (λ t. not (is_settled t)) self.now) }
    {
        !self.is_any_open()
    }

    /// Whether some thread was not started or has not ended.
    fn is_any_open(&self) -> bool
        ensures { result ≡ list_any (λ t. not (is_settled t)) self.now }
    {
        self.rows.iter().any(|t| is_open(t))
    }

    /// A worker has started a thread.
    fn start(&mut self, number: ThreadId, worker: WorkerId)
        ensures { self.new ≡ changed_first (is_thread number) (λ x. record x { worker = Some worker }) self.old }
    {
        start_at(self.rows.as_mut_slice(), number, worker);
    }

    /// A thread has ended.
    fn end(&mut self, number: ThreadId, end: ThreadEnd)
        ensures { self.new ≡ changed_first (is_thread number) (λ x. record x { ended = Some end }) self.old }
    {
        end_at(self.rows.as_mut_slice(), number, end);
    }

    /// A thread goes no further.
    fn leave(&mut self, number: ThreadId)
        ensures { self.new ≡ changed_first (is_thread number) (λ x. record x { left = true }) self.old }
    {
        leave_at(self.rows.as_mut_slice(), number);
    }
}

fn thread_index(rows: &[Thread], number: ThreadId) -> Option<usize>
    ensures { result ≡ position (is_thread number) rows.now }
{
    rows.iter().position(|t| t.number == number)
}

/// Where the first row of a thread stands.
fn thread_place(rows: &[Thread], number: ThreadId) -> Option<usize>
    ensures { MatchOption result (NoneFirst (is_thread number) rows.now) (λ i. FirstAt (is_thread number) rows.now i) }
{
    thread_index(rows, number)
}

fn start_row(row: &mut Thread, worker: WorkerId)
    ensures { row.new ≡ record row.old { worker = Some worker } }
{
    row.worker = Some(worker);
}

fn start_at(rows: &mut [Thread], number: ThreadId, worker: WorkerId)
    ensures { rows.new ≡ changed_first (is_thread number) (λ x. record x { worker = Some worker }) rows.old }
{
    if let Some(at) = thread_place(rows, number) {
        start_row(&mut rows[at], worker);
    }
}

fn end_row(row: &mut Thread, end: ThreadEnd)
    ensures { row.new ≡ record row.old { ended = Some end } }
{
    row.ended = Some(end);
}

fn end_at(rows: &mut [Thread], number: ThreadId, end: ThreadEnd)
    ensures { rows.new ≡ changed_first (is_thread number) (λ x. record x { ended = Some end }) rows.old }
{
    if let Some(at) = thread_place(rows, number) {
        end_row(&mut rows[at], end);
    }
}

fn leave_row(row: &mut Thread)
    ensures { row.new ≡ record row.old { left = true } }
{
    row.left = true;
}

fn leave_at(rows: &mut [Thread], number: ThreadId)
    ensures { rows.new ≡ changed_first (is_thread number) (λ x. record x { left = true }) rows.old }
{
    if let Some(at) = thread_place(rows, number) {
        leave_row(&mut rows[at]);
    }
}

/// The alias of thread 1.
const MAIN: &str = "main";

impl Standing {
    /// Before any entry: main is created, and not started.
    pub fn blank(alloc: Global) -> Result<Standing, AllocError>
        ensures { IfOk result (λ s. s ≡ blank.standing) }
    {
        let alias = Name::new(alloc, MAIN)?;
        let mut rows = Vec::new(alloc);
        rows.push(Thread {
            number: ThreadId::MAIN,
            alias: Some(alias),
            goal: None,
            worker: None,
            ended: None,
            left: false,
        })?;
        let threads = Threads { rows };
        Ok(Standing {
            size: 0,
            threads,
            halted: None,
        })
    }

    /// Whether a thread is started and has not ended.
    pub fn runs(&self, number: ThreadId) -> bool
        ensures { result ≡ runs number self.now }
    {
        self.threads.runs(number)
    }

    /// Whether a thread is started, and has neither ended nor left.
    pub fn stays(&self, number: ThreadId) -> bool
        ensures { result ≡ stays number self.now }
    {
        self.threads.stays(number)
    }

    /// Whether a thread has ended the run.
    pub fn is_halted(&self) -> bool
        ensures { result ≡ is_halted self.now }
    {
        self.halted.is_some()
    }

    /// Whether the run is over: a thread has ended it, or each was started and has ended.
    pub fn is_over(&self) -> bool
        ensures { result ≡ is_over self.now }
    {
        self.is_halted() || self.threads.are_settled()
    }

    /// One more entry: a worker has started a thread.
    pub fn start(&mut self, worker: WorkerId, thread: ThreadId)
        requires { self.old.size < 2 ^ 63 }
        ensures { self.new ≡ stand self.old (record { worker = worker; thread = thread; act = Act.Start }) }
    {
        self.threads.start(thread, worker);
        self.size += 1;
    }

    /// One more entry: a batch.
    pub fn publish(&mut self)
        requires { self.old.size < 2 ^ 63 }
        ensures { (w t : ℕ) (us : List Update) → self.new ≡ stand self.old (record { worker = w; thread = t; act = Act.Batch us }) }
    {
        self.size += 1;
    }

    /// One more entry: a thread has ended.
    pub fn end(&mut self, thread: ThreadId, end: ThreadEnd)
        requires { self.old.size < 2 ^ 63 }
        ensures { (w : ℕ) → self.new ≡ stand self.old (record { worker = w; thread = thread; act = Act.End end }) }
    {
        self.threads.end(thread, end);
        self.size += 1;
    }

    /// One more entry: a thread has ended the run.
    pub fn halt(&mut self, number: u8)
        requires { self.old.size < 2 ^ 63 }
        ensures { (w t : ℕ) → self.new ≡ stand self.old (record { worker = w; thread = t; act = Act.Halt number }) }
    {
        if self.halted.is_none() {
            self.halted = Some(number);
        }
        self.size += 1;
    }

    /// One more entry: a thread goes no further.
    pub fn leave(&mut self, thread: ThreadId)
        requires { self.old.size < 2 ^ 63 }
        ensures { (w : ℕ) → self.new ≡ stand self.old (record { worker = w; thread = thread; act = Act.Left }) }
    {
        self.threads.leave(thread);
        self.size += 1;
    }
}
