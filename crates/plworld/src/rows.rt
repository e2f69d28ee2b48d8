//! The rows of the table of requests: each computes its reply and its act, and changes nothing.
ghost use Rattle.std.specs.Prelude.{◌≡◌, ◌&&◌, not, IfOk, List, find};
ghost use Rattle.plevent.specs.declared.act.Entry.{Entry};
ghost use Rattle.plevent.specs.Reading.{reading};
ghost use Rattle.plevent.specs.Rows.{is_new, is_workers, is_halted, is_leave, start_row, erase_row, finish_row, leave_row, row, served_while, served};
ghost use Rattle.plworld.specs.Worlds.{IsWorld};

use plevent::{
    Act, Batch, ClauseName, JournalPlace, Reply, Request, Standing, Thread, ThreadEnd, ThreadId,
    Update,
};
use plstore::Store;
use plterm::name::Name;
use plterm::term::Term;
use std::alloc::{AllocError, Global};

/// A reply, and the act, if any, with the thread that its entry names.
pub type Row = (Reply, Option<(ThreadId, Act)>);

/// The row of a request of a thread, after the journal that the standing and the store are those of: where a thread has
/// ended the run, all stop, but for those that leave.
pub fn serve(
    standing: &Standing,
    store: &Store,
    alloc: Global,
    thread: ThreadId,
    request: Request,
) -> Result<Row, AllocError>
    ensures { IfOk result (λ r. (h : List Entry) → IsWorld h standing.now store.now → r ≡ served request thread (reading h)) }
{
    if stops(standing, &request) {
        return Ok((Reply::Stopped, None));
    }
    serve_while(standing, store, alloc, thread, request)
}

/// The row of a request that no halt stops: a thread that is not started, or has ended, is told to wait.
fn serve_while(
    standing: &Standing,
    store: &Store,
    alloc: Global,
    thread: ThreadId,
    request: Request,
) -> Result<Row, AllocError>
    ensures { IfOk result (λ r. (h : List Entry) → IsWorld h standing.now store.now → r ≡ served_while request thread (reading h)) }
{
    if is_of_workers(&request) || standing.runs(thread) {
        return row_of(standing, store, alloc, thread, request);
    }
    Ok((Reply::NotYet(request), None))
}

/// Whether a request is stopped, since a thread has ended the run: each but `Leave`.
fn stops(standing: &Standing, request: &Request) -> bool
    ensures { result ≡ (is_halted standing.now && not (is_leave request.now)) }
{
    standing.is_halted() && !is_leave(request)
}

/// Whether it says that a thread goes no further.
fn is_leave(request: &Request) -> bool
    ensures { result ≡ is_leave request.now }
{
    match request {
        Request::Leave => true,
        Request::Start
        | Request::Publish(_)
        | Request::EraseOne(_)
        | Request::Finish(_)
        | Request::HaltRun(_) => false,
    }
}

/// Whether a worker asks it, and no thread.
fn is_of_workers(request: &Request) -> bool
    ensures { result ≡ is_workers request.now }
{
    match request {
        Request::Start | Request::Leave => true,
        Request::Publish(_) | Request::EraseOne(_) | Request::Finish(_) | Request::HaltRun(_) =>
            false,
    }
}

fn row_of(
    standing: &Standing,
    store: &Store,
    alloc: Global,
    thread: ThreadId,
    request: Request,
) -> Result<Row, AllocError>
    ensures { IfOk result (λ r. (h : List Entry) → IsWorld h standing.now store.now → r ≡ row request thread (reading h)) }
{
    match request {
        Request::Start => return start_of(standing, alloc),
        Request::Publish(batch) => {
            return Ok((Reply::Published, Some((thread, Act::Batch(batch)))));
        }
        Request::EraseOne(name) => {
            let is_alive = store.alive(JournalPlace::new(standing.size), name);
            return Ok(erase_of(is_alive, name, thread));
        }
        Request::Finish(end) => return Ok(finish_of(end, thread)),
        Request::HaltRun(number) => {
            return Ok((Reply::Done, Some((thread, Act::Halt(number)))));
        }
        Request::Leave => return Ok(leave_of(standing, thread)),
    }
}

/// The row of an erasure: a clause that is alive goes, by a batch of its own.
fn erase_of(is_alive: bool, name: ClauseName, thread: ThreadId) -> Row
    ensures { result ≡ erase_row is_alive name thread }
{
    if !is_alive {
        return (Reply::Gone, None);
    }
    let batch = Batch::of(Update::Erase(name));
    (Reply::Erased, Some((thread, Act::Batch(batch))))
}

/// The row of an end: one that ends the run is asked for by `HaltRun` alone.
fn finish_of(end: ThreadEnd, thread: ThreadId) -> Row
    ensures { result ≡ finish_row end thread }
{
    match end {
        ThreadEnd::Halt(_) => (Reply::NotYet(Request::Finish(end)), None),
        ThreadEnd::True | ThreadEnd::False | ThreadEnd::Exception(_) | ThreadEnd::Budget => {
            (Reply::Done, Some((thread, Act::End(end))))
        }
    }
}

/// The row of a thread that goes no further: where the run is over, one that has neither ended nor left leaves.
fn leave_of(standing: &Standing, thread: ThreadId) -> Row
    ensures { result ≡ leave_row standing.now thread }
{
    if !standing.is_over() {
        return (Reply::NotYet(Request::Leave), None);
    }
    if standing.stays(thread) {
        return (Reply::Done, Some((thread, Act::Left)));
    }
    (Reply::Done, None)
}

/// The row of a start.
fn start_of(standing: &Standing, alloc: Global) -> Result<Row, AllocError>
    ensures { IfOk result (λ r. r ≡ start_row standing.now (find is_new standing.now.threads)) }
{
    match standing.threads.first_new() {
        None => {
            if standing.is_over() {
                return Ok((Reply::RunOver, None));
            }
            return Ok((Reply::NotYet(Request::Start), None));
        }
        Some(thread) => {
            let number = thread.number;
            let reply = started(thread, alloc)?;
            return Ok((reply, Some((number, Act::Start))));
        }
    }
}

fn started(thread: &Thread, alloc: Global) -> Result<Reply, AllocError>
    ensures { IfOk result (λ r. r ≡ Reply.Started thread.now.number thread.now.alias thread.now.goal) }
{
    let alias = copied_name(&thread.alias)?;
    let goal = copied_term(&thread.goal, alloc)?;
    Ok(Reply::Started {
        number: thread.number,
        alias,
        goal,
    })
}

fn copied_name(name: &Option<Name>) -> Result<Option<Name>, AllocError>
    ensures { IfOk result (λ n. n ≡ name.now) }
{
    match name {
        None => return Ok(None),
        Some(name) => {
            let copy = name.copied()?;
            return Ok(Some(copy));
        }
    }
}

fn copied_term(term: &Option<Term>, alloc: Global) -> Result<Option<Term>, AllocError>
    ensures { IfOk result (λ t. t ≡ term.now) }
{
    match term {
        None => return Ok(None),
        Some(term) => {
            let copy = term.copied(alloc)?;
            return Ok(Some(copy));
        }
    }
}
