//! The clauses of all batches (plstore).
use crate::made::{Change, batch, indicator};
use plclause::clause::Clause;
use plevent::{Batch, ClauseName, JournalPlace};
use plrecords::record::Cursor;
use plstore::store::Store;
use plterm::error::TermError;
use plterm::indicator::Indicator;
use plterm::name::Name;
use plterm::term::Term;
use std::alloc::{AllocError, Global};
use std::test::Fail;

/// A store with this batch, at 3.
fn store_of(alloc: Global, batch: &Batch) -> Result<Store, AllocError> {
    let mut store = Store::new(alloc);
    store.apply(alloc, batch, JournalPlace::new(3))?;
    Ok(store)
}

/// Two clauses of p/0 behind all others and one before them, an erasure of the first, and a declaration of p/2.
const CHANGES: [Change; 5] = [
    Change::Last("a"),
    Change::Last("b"),
    Change::First("c"),
    Change::EraseOwn(0),
    Change::Declare(2),
];

/// A store with one batch, at 3: it makes p :- a and p :- b behind all others and p :- c before them, erases p :- a again,
/// and declares p/2.
pub(crate) fn one_batch(alloc: Global) -> Result<Store, TermError> {
    let batch = batch(alloc, &CHANGES)?;
    Ok(store_of(alloc, &batch)?)
}

/// A clause's number, whether it is alive at 4, and its body.
const CLAUSES: [(u64, bool, &str); 3] = [(0, false, "a"), (1, true, "b"), (2, true, "c")];

/// Whether a clause has this body.
fn has_body(alloc: Global, clause: &Clause, body: &str) -> Result<bool, TermError> {
    let wanted = Term::atom(alloc, Name::new(alloc, body)?)?;
    Ok(clause.body().is_same(&wanted))
}

/// Whether there is a clause of this name with this body.
fn is_clause(
    alloc: Global,
    store: &Store,
    name: ClauseName,
    body: &str,
) -> Result<bool, TermError> {
    match store.clause(name) {
        None => Ok(false),
        Some(clause) => has_body(alloc, clause, body),
    }
}

/// The place of the first of these rows that is wrong.
fn wrong_clause(alloc: Global, store: &Store) -> Result<Option<usize>, TermError> {
    for (row, (number, here, body)) in CLAUSES.iter().enumerate() {
        let number = *number;
        let name = ClauseName { place: 3, number };
        let is_here = store.alive(JournalPlace::new(4), name);
        if is_here != *here || !is_clause(alloc, store, name, body)? {
            return Ok(Some(row));
        }
    }
    Ok(None)
}

/// Adds the numbers of the clauses of a procedure that are alive at a time, in their order, up to three.
fn put_walk(
    walk: &mut Vec<u64>,
    store: &Store,
    pred: &Indicator,
    g: u64,
) -> Result<(), AllocError> {
    let mut cursor = Cursor::Start;
    for _ in 0..3 {
        if let Some(name) = store.next_visible(JournalPlace::new(g), pred, cursor) {
            walk.push(name.number)?;
            cursor = Cursor::After(name);
        }
    }
    Ok(())
}

/// Whether these are the numbers of the clauses of p/0 at a time.
fn has_walk(alloc: Global, store: &Store, g: u64, wanted: &[u64]) -> Result<bool, AllocError> {
    let pred = indicator(alloc, 0)?;
    let mut walk = Vec::new(alloc);
    put_walk(&mut walk, store, &pred, g)?;
    Ok(walk.as_slice() == wanted)
}

/// Whether the walks at 3 and at 4 are right.
fn walks(alloc: Global, store: &Store) -> Result<[bool; 2], AllocError> {
    Ok([
        has_walk(alloc, store, 3, &[])?,
        has_walk(alloc, store, 4, &[2, 1])?,
    ])
}

/// The arity of p, a time, and whether it exists then.
const EXISTS: [(u16, u64, bool); 4] = [(0, 3, false), (0, 4, true), (1, 4, false), (2, 4, true)];

/// The place of the first of these rows that is wrong.
fn wrong_name(alloc: Global, store: &Store) -> Result<Option<usize>, AllocError> {
    for (row, (arity, g, there)) in EXISTS.iter().enumerate() {
        if store.exists(JournalPlace::new(*g), &indicator(alloc, *arity)?) != *there {
            return Ok(Some(row));
        }
    }
    Ok(None)
}

/// The first wrong row of the clauses and of the procedures, and whether the walks are right.
type Told = ([Option<usize>; 2], [bool; 2]);

fn told(alloc: Global, store: &Store) -> Result<Told, TermError> {
    let wrong = [wrong_clause(alloc, store)?, wrong_name(alloc, store)?];
    Ok((wrong, walks(alloc, store)?))
}

/// What is told of the store with one batch.
fn told_of_one(alloc: Global) -> Result<Told, TermError> {
    let store = one_batch(alloc)?;
    told(alloc, &store)
}

// Of the clauses of a batch those that it does not erase are alive behind it. The order is that of the database: a clause for
// the front stands first. A procedure exists from the place behind the batch that makes or declares it.
#[test]
fn clauses_of_a_batch(rt: HostRuntime) -> Result<(), Fail> {
    let found = told_of_one(rt.alloc())?;
    assert!(rt; found == ([None; 2], [true; 2]), "{found:?}");
    Ok(())
}
