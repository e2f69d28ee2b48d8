//! The own updates of open transactions (pltx).
ghost use Rattle.std.specs.Prelude.{OnOk};
ghost use Rattle.pltx.specs.Own.{IsOpen};

use crate::made::{clause, indicator};
use plevent::{JournalPlace, Key, Update};
use plterm::error::TermError;
use plterm::indicator::Indicator;
use pltx::{Ended, Isolation, Own, OwnCursor};
use std::alloc::{AllocError, Global};
use std::test::Fail;

/// Makes the clause of p/0 with this body, in front of all others.
fn add_first(alloc: Global, own: &mut Own, body: &str) -> Result<(), TermError>
    requires { IsOpen own.old }
    ensures { OnOk result (IsOpen own.new) }
{
    let clause = clause(alloc, body)?;
    own.add(Update::First(clause))?;
    Ok(())
}

/// Makes it behind all others.
fn add_last(alloc: Global, own: &mut Own, body: &str) -> Result<(), TermError>
    requires { IsOpen own.old }
    ensures { OnOk result (IsOpen own.new) }
{
    let clause = clause(alloc, body)?;
    own.add(Update::Last(clause))?;
    Ok(())
}

/// Begins a transaction with two clauses of p/0 in front, and one behind all others.
pub(crate) fn make_three(alloc: Global, own: &mut Own) -> Result<(), TermError>
    ensures { OnOk result (IsOpen own.new) }
{
    own.begin(Isolation::Transaction, JournalPlace::new(9))?;
    add_first(alloc, own, "a")?;
    add_first(alloc, own, "b")?;
    add_last(alloc, own, "c")
}

/// Adds the numbers of the own clauses of p/0 after the first updates, in their order, up to four.
fn put_walk(walk: &mut Vec<u64>, own: &Own, m: u64, pred: &Indicator) -> Result<(), AllocError> {
    let mut cursor = OwnCursor::Start;
    for _ in 0..4 {
        if let Some(number) = own.next_own(m, pred, &Key::Any, cursor) {
            walk.push(number)?;
            cursor = OwnCursor::After(number);
        }
    }
    Ok(())
}

/// Whether these are their numbers.
fn has_walk(alloc: Global, own: &Own, m: u64, wanted: &[u64]) -> Result<bool, AllocError> {
    let pred = indicator(alloc, 0)?;
    let mut walk = Vec::new(alloc);
    put_walk(&mut walk, own, m, &pred)?;
    Ok(walk.as_slice() == wanted)
}

/// How many updates the end of a transaction publishes, if it does, and how many transactions are open then.
type Ending = (Option<usize>, usize);

fn ending(own: &mut Own) -> Ending
    requires { IsOpen own.old }
{
    let published = match own.end(true) {
        Ended::Publish(batch) => Some(batch.as_slice().len()),
        Ended::Merged | Ended::Nothing | Ended::Dropped => None,
    };
    (published, own.depth())
}

/// Whether the clauses are found in their order by a call that sees all of them, and by one that sees the first, and what
/// the end does.
type Told = ([bool; 2], Ending);

/// What is told of own updates once these are made.
fn told(alloc: Global, own: &mut Own) -> Result<Told, TermError> {
    make_three(alloc, own)?;
    let walks = [
        has_walk(alloc, own, 3, &[1, 0, 2])?,
        has_walk(alloc, own, 1, &[0])?,
    ];
    Ok((walks, ending(own)))
}

/// What is told of these updates.
fn told_of_three(alloc: Global) -> Result<Told, TermError> {
    let mut own = Own::new(alloc);
    told(alloc, &mut own)
}

// The last clause in front comes first, and a later one is not seen yet. The outermost transaction publishes all.
#[test]
fn own_clauses(rt: HostRuntime) -> Result<(), Fail> {
    let found = told_of_three(rt.alloc())?;
    assert!(rt; found == ([true; 2], (Some(3), 0)), "{found:?}");
    Ok(())
}
