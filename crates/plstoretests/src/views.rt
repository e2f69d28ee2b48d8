//! Look-ups in views of the journal and of own updates (plviews).
use crate::made::indicator;
use crate::owns::make_three;
use crate::stores::one_batch;
use plevent::{ClauseName, JournalPlace, Key};
use plstore::Store;
use plterm::error::TermError;
use plterm::indicator::Indicator;
use pltx::{Own, OwnCursor, Target};
use plviews::{Lookup, Reach, Step, Told, View};
use std::alloc::{AllocError, Global};
use std::fmt::Write;
use std::string::String;
use std::test::Fail;

/// Makes two clauses of p/0 in front and one behind all others, and then erases a clause of the store at 3.
fn make_four(alloc: Global, own: &mut Own) -> Result<(), TermError> {
    make_three(alloc, own)?;
    own.erase(Target::Committed(ClauseName {
        place: 3,
        number: 1,
    }))?;
    Ok(())
}

/// Adds the name of a clause, and what comes next behind it.
fn put_next(
    walk: &mut String,
    lookup: &Lookup,
    name: ClauseName,
    behind: Reach,
) -> Result<Step, AllocError> {
    write!(walk, "{}.{} ", name.place, name.number)?;
    Ok(lookup.next(behind))
}

/// What comes next behind a step, of which a clause is added. The store is asked at 9.
fn put_step(
    walk: &mut String,
    store: &Store,
    lookup: &Lookup,
    step: Step,
) -> Result<Step, AllocError> {
    match step {
        Step::Next(name, behind) => put_next(walk, lookup, name, behind),
        Step::Asks(cursor) => {
            let name = store.next_like(JournalPlace::new(9), lookup.pred, lookup.key, cursor);
            Ok(lookup.found(name))
        }
        Step::Nothing => Ok(Step::Nothing),
    }
}

/// Adds the names of all clauses, in their order.
fn put_walk(walk: &mut String, store: &Store, lookup: &Lookup) -> Result<(), AllocError> {
    let mut step = lookup.next(Reach::Front(OwnCursor::Start));
    for _ in 0..12 {
        step = put_step(walk, store, lookup, step)?;
    }
    Ok(())
}

/// Adds the places and numbers of the clauses of p/0 after the first own updates, on top of a store at 9, in their order.
fn put_view(
    walk: &mut String,
    store: &Store,
    own: &Own,
    pred: &Indicator,
    count: u64,
) -> Result<(), AllocError> {
    let view = View { place: 9, count };
    let key = &Key::Any;
    let lookup = Lookup {
        own,
        view,
        pred,
        key,
    };
    put_walk(walk, store, &lookup)
}

/// Whether these are their places and numbers.
fn has_view(
    alloc: Global,
    store: &Store,
    own: &Own,
    count: u64,
    seen: &str,
) -> Result<bool, AllocError> {
    let pred = indicator(alloc, 0)?;
    let mut walk = String::new(alloc);
    put_view(&mut walk, store, own, &pred, count)?;
    Ok(walk.as_str() == seen)
}

/// How many own updates a call sees, and the clauses of p/0 for it.
const SEEN: [(u64, &str); 4] = [
    (4, "9.1 9.0 3.2 9.2 "),
    (3, "9.1 9.0 3.2 3.1 9.2 "),
    (1, "9.0 3.2 3.1 "),
    (0, "3.2 3.1 "),
];

/// The place of the first of these rows that is wrong.
fn wrong_view(alloc: Global, store: &Store, own: &Own) -> Result<Option<usize>, AllocError> {
    for (place, (count, seen)) in SEEN.iter().enumerate() {
        if !has_view(alloc, store, own, *count, seen)? {
            return Ok(Some(place));
        }
    }
    Ok(None)
}

/// A clause's place and number, and what own updates tell of it.
const TOLD: [(u64, u64, &str); 5] = [
    (9, 2, "clause"),
    (9, 4, "nothing"),
    (3, 1, "nothing"),
    (3, 2, "asks"),
    (3, 7, "asks"),
];

fn told(own: &Own, place: u64, number: u64) -> &'static str {
    let view = View { place: 9, count: 4 };
    match view.clause(own, ClauseName { place, number }) {
        Told::Clause(_) => "clause",
        Told::Nothing => "nothing",
        Told::Asks => "asks",
    }
}

/// The place of the first of these rows that is wrong.
fn wrong_clause(own: &Own) -> Option<usize> {
    for (row, (place, number, wanted)) in TOLD.iter().enumerate() {
        if told(own, *place, *number) != *wanted {
            return Some(row);
        }
    }
    None
}

/// The first wrong row of each table, once the own updates are made.
fn wrong_in(alloc: Global, store: &Store, own: &mut Own) -> Result<[Option<usize>; 2], TermError> {
    make_four(alloc, own)?;
    Ok([wrong_view(alloc, store, own)?, wrong_clause(own)])
}

/// The first wrong row of each table, on top of this store.
fn wrong_on(alloc: Global, store: &Store) -> Result<[Option<usize>; 2], TermError> {
    let mut own = Own::new(alloc);
    wrong_in(alloc, store, &mut own)
}

/// The first wrong row of each table.
fn wrong(alloc: Global) -> Result<[Option<usize>; 2], TermError> {
    let store = one_batch(alloc)?;
    wrong_on(alloc, &store)
}

// Those of the store stand between the own ones, without the one that is erased; a call sees what was there at its time.
// A clause of the store that no own update erases is asked of the store.
#[test]
fn clauses_in_views(rt: HostRuntime) -> Result<(), Fail> {
    let found = wrong(rt.alloc())?;
    assert!(rt; found == [None; 2], "{found:?}");
    Ok(())
}
