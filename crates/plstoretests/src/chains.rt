//! Records that are linked with those of their class (plrecords).
use crate::made::{First, fact, indicator};
use crate::named::{key, name};
use plrecords::ends::{Ends, ends_of, restore_ends, set_ends};
use plrecords::leap::near;
use plrecords::links::{Added, Links, add};
use plrecords::part::Part;
use plrecords::slot::Slots;
use plrecords::starts::Starts;
use plterm::error::TermError;
use std::alloc::{AllocError, Global};
use std::collections::HashMap;
use std::test::Fail;

/// The key of the class.
const CLASS: u64 = 7;

/// Records of one class, and where it begins and ends.
#[derive(Drop)]
struct Chain {
    links: Links,
    index: HashMap<u64, Ends>,
}

/// Adds a record to the chain; what its ends were.
fn put(chain: &mut Chain, added: Added) -> Result<Ends, AllocError> {
    chain.links.reserve(1)?;
    chain.index.reserve(1)?;
    let count = chain.links.next.len();
    match ends_of(&chain.index, &CLASS).newest_back {
        Some(last) if last as usize >= count => Err(AllocError),
        Some(_) | None => Ok(add(&mut chain.links, &mut chain.index, CLASS, added)),
    }
}

/// The number of a record, the place of its batch, and whether it is put before all others.
const RECORDS: [(u32, u64, bool); 4] = [(0, 3, false), (1, 4, false), (2, 5, true), (3, 6, false)];

/// Puts these four records into a chain without records, numbered from 0 on.
fn put_four(chain: &mut Chain) -> Result<(), AllocError> {
    for (number, place, front) in &RECORDS {
        let added = Added {
            number: *number,
            front: *front,
            place: *place,
        };
        put(chain, added)?;
    }
    Ok(())
}

/// Whether a walk at 9 comes to this record behind the one of a number, past those that are erased by then.
fn is_behind(links: &Links, number: usize, wanted: Option<usize>) -> bool {
    if number >= links.places.len() {
        return false;
    }
    let end = match links.places[number].run {
        Some(run) if run.latest < 9 => run.last,
        Some(_) | None => number,
    };
    end < links.next.len() && links.next_behind(number, 9) == wanted
}

/// Whether the ends of the class are those of a chain with two sides.
fn has_two_sides(chain: &Chain) -> bool {
    let ends = ends_of(&chain.index, &CLASS);
    ends.is_since(4)
        && !ends.is_since(3)
        && (ends.first(true), ends.first(false)) == (Some(2), Some(0))
        && (ends.newest(true), ends.newest(false)) == (Some(2), Some(3))
}

/// Whether a walk comes to each record of its side.
fn is_walked(links: &Links) -> bool {
    is_behind(links, 0, Some(1)) && is_behind(links, 1, Some(3)) && is_behind(links, 2, None)
}

/// Whether a walk passes over the record 1 while the batch at 7 erases it, and comes to it once that is taken back.
fn is_passed_over(links: &mut Links) -> bool {
    let buried = links.bury(1, 7);
    let passed = is_behind(links, 1, Some(3)) && near(links, false, 3, 0, 9) < 4;
    links.unbury(&buried);
    passed && is_behind(links, 0, Some(1))
}

/// Takes the last record from a chain to which it was added behind.
fn drop_back(chain: &mut Chain, ends: Ends) {
    chain.links.drop_last(false, ends);
    if chain.index.get(&CLASS).is_some() {
        restore_ends(&mut chain.index, CLASS, ends);
    }
}

/// Whether a last record is behind the record 3 until it is taken back.
fn is_taken_back(chain: &mut Chain) -> Result<bool, AllocError> {
    let added = Added {
        number: 4,
        front: false,
        place: 8,
    };
    let before = put(chain, added)?;
    let was_behind = is_behind(&chain.links, 3, Some(4));
    drop_back(chain, before);
    let is_last = ends_of(&chain.index, &CLASS).newest(false) == Some(3);
    Ok(was_behind && is_behind(&chain.links, 3, None) && is_last)
}

/// Whether the ends that are set for one more class are its own.
fn has_set_ends(chain: &mut Chain) -> Result<bool, AllocError> {
    let ends = ends_of(&chain.index, &CLASS);
    chain.index.reserve(1)?;
    set_ends(&mut chain.index, 8, ends);
    Ok(
        ends_of(&chain.index, &8).first(true) == Some(2)
            && ends_of(&chain.index, &9).first(true).is_none(),
    )
}

/// Whether each of these holds of four records, one after the other.
fn held_in(chain: &mut Chain) -> Result<[bool; 5], AllocError> {
    put_four(chain)?;
    Ok([
        has_two_sides(chain),
        is_walked(&chain.links),
        is_passed_over(&mut chain.links),
        is_taken_back(chain)?,
        has_set_ends(chain)?,
    ])
}

/// Whether each of these holds.
fn held(alloc: Global) -> Result<[bool; 5], AllocError> {
    let mut chain = Chain {
        links: Links::new(alloc),
        index: HashMap::new(alloc),
    };
    held_in(&mut chain)
}

#[test]
fn chain_of_four(rt: HostRuntime) -> Result<(), Fail> {
    let found = held(rt.alloc())?;
    assert!(rt; found == [true; 5], "{found:?}");
    Ok(())
}

/// Whether what is left of a side is all of it, or what is behind the record 3, and which records belong to that.
const PARTS: [(bool, Option<usize>, Option<usize>, bool); 7] = [
    (false, None, Some(0), true),
    (false, None, None, false),
    (false, Some(3), Some(3), false),
    (false, Some(3), Some(4), true),
    (true, Some(3), Some(2), true),
    (true, Some(3), Some(4), false),
    (true, Some(3), None, false),
];

/// The place of the first of these rows that is wrong.
fn wrong_part() -> Option<usize> {
    for (place, (front, behind, number, belongs)) in PARTS.iter().enumerate() {
        let part = Part {
            front: *front,
            behind: *behind,
        };
        if part.reaches(*number) != *belongs {
            return Some(place);
        }
    }
    None
}

#[test]
fn parts_of_sides(rt: HostRuntime) {
    assert_eq!(rt; wrong_part(), None);
}

/// The first argument of a goal, that of a fact, and whether the slot of the goal's key is that of the fact.
const SLOTS: [(Option<i64>, First, bool); 4] = [
    (Some(1), First::Int(1), true),
    (Some(1), First::Int(2), false),
    (None, First::Variable, true),
    (Some(1), First::Variable, false),
];

/// The slots of p/1.
fn slots(alloc: Global) -> Result<Slots, AllocError> {
    Ok(Slots::new(&indicator(alloc, 1)?))
}

/// Whether the slot of the goal's key is that of the fact.
fn is_slot(alloc: Global, goal: Option<i64>, first: First) -> Result<bool, TermError> {
    let slots = slots(alloc)?;
    let fact = fact(alloc, first)?;
    Ok(slots.of_key(&key(goal)) == slots.of_head(&fact.head().root()))
}

/// The place of the first of these rows that is wrong.
fn wrong_slot(alloc: Global) -> Result<Option<usize>, TermError> {
    for (place, (goal, first, same)) in SLOTS.iter().enumerate() {
        if is_slot(alloc, *goal, *first)? != *same {
            return Ok(Some(place));
        }
    }
    Ok(None)
}

#[test]
fn slots_of_keys_and_facts(rt: HostRuntime) -> Result<(), Fail> {
    assert_eq!(rt; wrong_slot(rt.alloc())?, None);
    Ok(())
}

/// What is guessed of the start of the latest place, and of an earlier one once the latest are forgotten.
fn guessed(starts: &mut Starts) -> (usize, usize) {
    starts.note(name(3, 0), 0);
    starts.note(name(5, 0), 1);
    let latest = starts.guess(name(5, 0), 2);
    starts.forget_above(3);
    (latest, starts.guess(name(3, 0), 1))
}

/// The same of starts of which nothing is known yet.
fn guessed_anew(alloc: Global) -> (usize, usize) {
    let mut starts = Starts::new(alloc);
    guessed(&mut starts)
}

// The records of the latest place are the last ones.
#[test]
fn last_record_is_found_at_once(rt: HostRuntime) -> Result<(), Fail> {
    assert!(rt; guessed_anew(rt.alloc()) == (1, 0));
    Ok(())
}
