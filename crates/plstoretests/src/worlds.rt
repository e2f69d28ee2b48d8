//! The journal and its requests (plworld): what is asked of a world, one thing after the other, and what it tells, with its journal at the end.
use crate::made::{Change, batch, indicator};
use plevent::{
    Act, Batch, ClauseName, Entry, JournalPlace, Key, Reply, Request, ThreadEnd, ThreadId, Update,
    WorkerId,
};
use plrecords::Cursor;
use plstore::{Found, Query};
use plterm::error::TermError;
use plworld::world::World;
use std::alloc::{AllocError, Global};
use std::fmt::Write;
use std::string::String;
use std::test::Fail;

/// What a worker asks: the first worker of main, but for a start, which a worker asks of no thread.
#[derive(Clone, Copy)]
enum Asked {
    Start(u32),
    /// A batch with the clause `p.` behind all others, or one of nothing.
    Publish,
    PublishNothing,
    /// An erasure of the clause of this place and number.
    Erase(u64, u64),
    Fail,
    Succeed,
    /// An end of the run, with 44.
    Halt,
    Leave,
}

/// What is looked at, as of a time.
#[derive(Clone, Copy)]
enum Looked {
    /// Whether p/0 exists.
    Exists,
    /// The first clause of p/0.
    First,
    /// The same by name alone, and the one behind the clause of place 2.
    Next,
    NextBehind,
    /// Whether the clause of place 2 is found, and alive.
    Clause,
    Alive,
}

#[derive(Clone, Copy)]
enum Move {
    Ask(Asked),
    Look(u64, Looked),
    IsOver,
    Front,
    /// How many entries there are, by looking at them.
    Entries,
    Stop,
    IsStopped,
}

/// The name of a clause.
fn named(place: u64, number: u64) -> ClauseName {
    ClauseName { place, number }
}

/// A batch with the clause `p.` behind all others.
fn one_clause(alloc: Global) -> Result<Batch, TermError> {
    batch(alloc, &[Change::Last("true")])
}

/// A batch of nothing.
fn nothing(alloc: Global) -> Batch {
    Batch::new(alloc, Vec::new(alloc))
}

fn request_of(alloc: Global, asked: Asked) -> Result<Request, TermError> {
    match asked {
        Asked::Start(_) => Ok(Request::Start),
        Asked::Publish => Ok(Request::Publish(one_clause(alloc)?)),
        Asked::PublishNothing => Ok(Request::Publish(nothing(alloc))),
        Asked::Erase(place, number) => Ok(Request::EraseOne(named(place, number))),
        Asked::Fail => Ok(Request::Finish(ThreadEnd::False)),
        Asked::Succeed => Ok(Request::Finish(ThreadEnd::True)),
        Asked::Halt => Ok(Request::HaltRun(44)),
        Asked::Leave => Ok(Request::Leave),
    }
}

/// A reply by a word of its own.
fn reply_word(reply: &Reply) -> &'static str {
    match reply {
        Reply::Started {
            number,
            alias: Some(alias),
            goal: None,
        } if *number == ThreadId::MAIN && alias.as_str() == "main" => "main is started",
        Reply::RunOver => "run over",
        Reply::Stopped => "stopped",
        Reply::NotYet(Request::Start) => "no start yet",
        Reply::NotYet(Request::EraseOne(_)) => "no erasure yet",
        Reply::NotYet(Request::Leave) => "no leave yet",
        Reply::Erased => "erased",
        Reply::Gone => "gone",
        Reply::Done => "done",
        Reply::Published => "published",
        Reply::Shut => "shut",
        Reply::Started { .. } | Reply::NotYet(_) => "another",
    }
}

/// The worker and the thread that ask.
fn asking(asked: Asked) -> (WorkerId, ThreadId) {
    match asked {
        Asked::Start(worker) => (WorkerId::new(worker), ThreadId::NONE),
        _ => (WorkerId::FIRST, ThreadId::MAIN),
    }
}

/// The reply to what a worker asks, by a word of its own.
fn ask(alloc: Global, world: &mut World, asked: Asked) -> Result<&'static str, TermError> {
    let (worker, thread) = asking(asked);
    let request = request_of(alloc, asked)?;
    let reply = world.step(alloc, worker, thread, request)?;
    Ok(reply_word(&reply))
}

fn query_of(alloc: Global, looked: Looked) -> Result<Query, AllocError> {
    let pred = indicator(alloc, 0)?;
    Ok(match looked {
        Looked::Exists => Query::Exists(pred),
        Looked::First => Query::NextLike(pred, Key::Any, Cursor::Start),
        Looked::Next => Query::Next(pred, Cursor::Start),
        Looked::NextBehind => Query::Next(pred, Cursor::After(named(2, 0))),
        Looked::Clause => Query::Clause(named(2, 0)),
        Looked::Alive => Query::Alive(named(2, 0)),
    })
}

fn truth(is: bool) -> &'static str {
    if is { "yes" } else { "no" }
}

/// Adds what is found by a word, or the place of the clause.
fn put_found(told: &mut String, found: &Found) -> Result<(), AllocError> {
    match found {
        Found::Next(Some(name)) => write!(told, "{}", name.place),
        Found::Next(None) => told.push_str("none"),
        Found::Clause(clause) => told.push_str(truth(clause.is_some())),
        Found::Alive(is) | Found::Exists(is) => told.push_str(truth(*is)),
    }
}

/// Adds what is found in a world at a time.
fn look(
    alloc: Global,
    told: &mut String,
    world: &World,
    g: u64,
    looked: Looked,
) -> Result<(), AllocError> {
    let query = query_of(alloc, looked)?;
    let found = world.look(JournalPlace::new(g), &query)?;
    put_found(told, &found)
}

/// What a world that is stopped now tells.
fn stop(world: &mut World) -> &'static str {
    world.stop();
    "stop"
}

/// Adds what a world tells when it is moved so.
fn put_word(
    alloc: Global,
    told: &mut String,
    world: &mut World,
    by: Move,
) -> Result<(), TermError> {
    match by {
        Move::Ask(asked) => told.push_str(ask(alloc, world, asked)?)?,
        Move::Look(g, looked) => look(alloc, told, world, g, looked)?,
        Move::IsOver => told.push_str(truth(world.is_over()))?,
        Move::Front => write!(told, "{}", world.front().get())?,
        Move::Entries => write!(told, "{}", world.entries().len())?,
        Move::Stop => told.push_str(stop(world))?,
        Move::IsStopped => told.push_str(truth(world.stopped()))?,
    }
    Ok(())
}

/// Adds what a world tells when it is moved so, one after the other.
fn put_words(
    alloc: Global,
    told: &mut String,
    world: &mut World,
    moves: &[Move],
) -> Result<(), TermError> {
    for by in moves {
        put_word(alloc, told, world, *by)?;
        told.push_str(", ")?;
    }
    Ok(())
}

/// What an entry is of, by a word of its own.
fn act_word(act: &Act) -> &'static str {
    match act {
        Act::Batch(batch) => match batch.as_slice() {
            [] => "nothing",
            [Update::Last(_)] => "a clause",
            [Update::Erase(name)] if (name.place, name.number) == (2, 0) => "an erasure",
            _ => "another batch",
        },
        Act::Start => "start",
        Act::End(ThreadEnd::False) => "false",
        Act::End(_) => "another end",
        Act::Halt(44) => "halt",
        Act::Halt(_) => "another halt",
        Act::Left => "left",
    }
}

/// Adds the workers, threads and acts of a journal.
fn put_journal(told: &mut String, entries: &[Entry]) -> Result<(), AllocError> {
    for entry in entries {
        let word = act_word(&entry.act);
        write!(
            told,
            "{}.{} {word}, ",
            entry.worker.get(),
            entry.thread.get()
        )?;
    }
    Ok(())
}

/// A world that is opened with a batch and moved so. What it tells is added.
fn moved(
    alloc: Global,
    told: &mut String,
    first: &Batch,
    moves: &[Move],
) -> Result<World, TermError> {
    let mut world = World::open(alloc, first)?;
    put_words(alloc, told, &mut world, moves)?;
    Ok(world)
}

/// Adds what a world tells that is opened with a batch and moved so, and its journal then.
fn run(
    alloc: Global,
    told: &mut String,
    journal: &mut String,
    first: &Batch,
    moves: &[Move],
) -> Result<(), TermError> {
    let world = moved(alloc, told, first, moves)?;
    let entries = world.close();
    put_journal(journal, entries.as_slice())?;
    Ok(())
}

/// Moves of a world whose program has nothing in it, what it tells, and its journal.
type Row = (&'static [Move], &'static str, &'static str);

/// Adds what a world tells whose program has nothing in it, and its journal then.
fn run_alone(
    alloc: Global,
    told: &mut String,
    journal: &mut String,
    moves: &[Move],
) -> Result<(), TermError> {
    let first = nothing(alloc);
    run(alloc, told, journal, &first, moves)
}

/// Whether a row is right, of which nothing is told yet.
fn is_right_in(
    alloc: Global,
    told: &mut String,
    journal: &mut String,
    row: &Row,
) -> Result<bool, TermError> {
    let (moves, wanted, entries) = *row;
    run_alone(alloc, told, journal, moves)?;
    Ok(told.as_str() == wanted && journal.as_str() == entries)
}

/// Whether a row is right.
fn is_right(alloc: Global, row: &Row) -> Result<bool, TermError> {
    let mut told = String::new(alloc);
    let mut journal = String::new(alloc);
    is_right_in(alloc, &mut told, &mut journal, row)
}

/// The place of the first row that is wrong.
fn wrong_row(alloc: Global, rows: &[Row]) -> Result<Option<usize>, TermError> {
    for (place, row) in rows.iter().enumerate() {
        if !is_right(alloc, row)? {
            return Ok(Some(place));
        }
    }
    Ok(None)
}

/// Starts, batches, and ends of the run.
const STARTS_AND_ENDS: [Row; 4] = [
    // The first thread that is started is main, thread 1, which has the program's goals and none of its own.
    (
        &[Move::Ask(Asked::Start(1))],
        "main is started, ",
        "0.0 nothing, 1.1 start, ",
    ),
    // The clause that main publishes at 2 is there from place 3 on.
    (
        &[
            Move::Ask(Asked::Start(1)),
            Move::Ask(Asked::Publish),
            Move::Look(2, Looked::Clause),
            Move::Look(3, Looked::Clause),
            Move::Front,
            Move::Entries,
        ],
        "main is started, published, no, yes, 3, 3, ",
        "0.0 nothing, 1.1 start, 1.1 a clause, ",
    ),
    // The run is over once main has ended.
    (
        &[
            Move::Ask(Asked::Start(1)),
            Move::Ask(Asked::Publish),
            Move::Ask(Asked::Start(1)),
            Move::IsOver,
            Move::Ask(Asked::Fail),
            Move::IsOver,
            Move::Ask(Asked::Start(1)),
        ],
        "main is started, published, no start yet, no, done, yes, run over, ",
        "0.0 nothing, 1.1 start, 1.1 a clause, 1.1 false, ",
    ),
    // A thread ends the run: from then on all are stopped, and nothing is added.
    (
        &[
            Move::Ask(Asked::Start(1)),
            Move::Ask(Asked::Publish),
            Move::Ask(Asked::Halt),
            Move::IsOver,
            Move::Ask(Asked::Start(2)),
            Move::Ask(Asked::Succeed),
        ],
        "main is started, published, done, yes, stopped, stopped, ",
        "0.0 nothing, 1.1 start, 1.1 a clause, 1.1 halt, ",
    ),
];

/// Erasures, and queries of their times.
const ERASURES: [Row; 4] = [
    // A clause is erased once, by one entry more, and is there up to that entry's place. The second time it is gone.
    (
        &[
            Move::Ask(Asked::Start(1)),
            Move::Ask(Asked::Publish),
            Move::Ask(Asked::Erase(2, 0)),
            Move::Ask(Asked::Erase(2, 0)),
            Move::Look(3, Looked::Clause),
            Move::Look(4, Looked::Clause),
        ],
        "main is started, published, erased, gone, yes, no, ",
        "0.0 nothing, 1.1 start, 1.1 a clause, 1.1 an erasure, ",
    ),
    // Each query is answered as of its time: main's clause is there at 3 alone, and its procedure from then on.
    (
        &[
            Move::Ask(Asked::Start(1)),
            Move::Ask(Asked::Publish),
            Move::Ask(Asked::Erase(2, 0)),
            Move::Look(2, Looked::Exists),
            Move::Look(2, Looked::First),
            Move::Look(2, Looked::Next),
            Move::Look(2, Looked::Alive),
            Move::Look(3, Looked::Exists),
            Move::Look(3, Looked::First),
            Move::Look(3, Looked::Next),
            Move::Look(3, Looked::NextBehind),
            Move::Look(3, Looked::Alive),
            Move::Look(4, Looked::Exists),
            Move::Look(4, Looked::First),
            Move::Look(4, Looked::Next),
            Move::Look(4, Looked::Alive),
        ],
        "main is started, published, erased, no, none, none, no, yes, 2, 2, none, yes, yes, none, none, no, ",
        "0.0 nothing, 1.1 start, 1.1 a clause, 1.1 an erasure, ",
    ),
    // What has the name of no clause is gone, nothing is added, and the clause stays.
    (
        &[
            Move::Ask(Asked::Start(1)),
            Move::Ask(Asked::Publish),
            Move::Ask(Asked::Erase(2, 1)),
            Move::Ask(Asked::Erase(1, 0)),
            Move::Ask(Asked::Erase(3, 0)),
            Move::Front,
            Move::Look(3, Looked::Clause),
        ],
        "main is started, published, gone, gone, gone, 3, yes, ",
        "0.0 nothing, 1.1 start, 1.1 a clause, ",
    ),
    // Behind the end of the run no clause is erased.
    (
        &[
            Move::Ask(Asked::Start(1)),
            Move::Ask(Asked::Publish),
            Move::Ask(Asked::Halt),
            Move::Ask(Asked::Erase(2, 0)),
            Move::Ask(Asked::Erase(2, 0)),
            Move::Front,
            Move::Look(4, Looked::Clause),
        ],
        "main is started, published, done, stopped, stopped, 4, yes, ",
        "0.0 nothing, 1.1 start, 1.1 a clause, 1.1 halt, ",
    ),
];

/// Threads that leave, and a world that is stopped.
const LEAVES: [Row; 3] = [
    // Behind a halt main leaves, by one entry more. The second time nothing is added, and a batch is stopped.
    (
        &[
            Move::Ask(Asked::Start(1)),
            Move::Ask(Asked::Publish),
            Move::Ask(Asked::Halt),
            Move::Ask(Asked::Leave),
            Move::Ask(Asked::Leave),
            Move::Ask(Asked::PublishNothing),
        ],
        "main is started, published, done, done, done, stopped, ",
        "0.0 nothing, 1.1 start, 1.1 a clause, 1.1 halt, 1.1 left, ",
    ),
    // While the run goes on nobody leaves, and nothing is added but by a batch.
    (
        &[
            Move::Ask(Asked::Start(1)),
            Move::Ask(Asked::Publish),
            Move::Ask(Asked::Leave),
            Move::Ask(Asked::Leave),
            Move::Ask(Asked::PublishNothing),
            Move::Front,
        ],
        "main is started, published, no leave yet, no leave yet, published, 4, ",
        "0.0 nothing, 1.1 start, 1.1 a clause, 1.1 nothing, ",
    ),
    // A world that is stopped serves nothing, Leave neither, adds nothing, and is looked at as before.
    (
        &[
            Move::Ask(Asked::Start(1)),
            Move::Ask(Asked::Publish),
            Move::IsStopped,
            Move::Stop,
            Move::IsStopped,
            Move::Ask(Asked::Leave),
            Move::Ask(Asked::Leave),
            Move::Ask(Asked::PublishNothing),
            Move::Front,
            Move::Look(3, Looked::Alive),
        ],
        "main is started, published, no, stop, yes, shut, shut, shut, 3, yes, ",
        "0.0 nothing, 1.1 start, 1.1 a clause, ",
    ),
];

/// The first wrong row of each of these tables.
fn wrong_rows(alloc: Global) -> Result<[Option<usize>; 3], TermError> {
    Ok([
        wrong_row(alloc, &STARTS_AND_ENDS)?,
        wrong_row(alloc, &ERASURES)?,
        wrong_row(alloc, &LEAVES)?,
    ])
}

#[test]
fn rows_of_moves(rt: HostRuntime) -> Result<(), Fail> {
    let found = wrong_rows(rt.alloc())?;
    assert!(rt; found == [None; 3], "{found:?}");
    Ok(())
}

/// Moves of a world whose program has the clause `p.`, and what it tells: a thread that is not started waits, and erases a clause of the
/// program once it is.
const EARLY: &[Move] = &[
    Move::Ask(Asked::Erase(0, 0)),
    Move::Ask(Asked::Erase(0, 0)),
    Move::Front,
    Move::Ask(Asked::Start(1)),
    Move::Ask(Asked::Erase(0, 0)),
    Move::Ask(Asked::Erase(0, 0)),
];

/// Adds what a world with that program tells.
fn tell_early(alloc: Global, told: &mut String) -> Result<(), TermError> {
    let first = one_clause(alloc)?;
    let world = moved(alloc, told, &first, EARLY)?;
    world.close();
    Ok(())
}

/// Whether what a world with that program tells is this.
fn is_early(alloc: Global, wanted: &str) -> Result<bool, TermError> {
    let mut told = String::new(alloc);
    tell_early(alloc, &mut told)?;
    Ok(told.as_str() == wanted)
}

#[test]
fn no_erasure_before_a_start(rt: HostRuntime) -> Result<(), Fail> {
    let wanted = "no erasure yet, no erasure yet, 1, main is started, erased, gone, ";
    assert!(rt; is_early(rt.alloc(), wanted)?);
    Ok(())
}
