//! Leaps: links over many records of a side, by which one close to another is found. Nothing but time depends on them.
ghost use Rattle.std.specs.Prelude.{◌<◌, IfSome};

use crate::ends::wide;
use crate::group::short;
use crate::links::Links;
use crate::runs::{RecordNotes, before, passed_from};

/// A link from a record to an older one of its side, and how many it leads over. With these one of n records is found in
/// about log n steps.
#[derive(Clone, Copy)]
pub struct Leap {
    pub to: u32,
    pub over: u32,
}

/// The leap of one more record: over the last two leaps where they are as wide as one another, else to the record before.
pub(crate) fn leap_over(places: &[RecordNotes], older: Option<usize>, number: usize) -> Leap {
    match older {
        None => Leap {
            to: short(number),
            over: 0,
        },
        Some(to) => {
            let last = leap_at(places, to);
            let second = leap_at(places, last.to as usize);
            if last.over == second.over {
                Leap {
                    to: second.to,
                    over: last.over.wrapping_add(last.over).wrapping_add(1),
                }
            } else {
                Leap {
                    to: short(to),
                    over: 1,
                }
            }
        }
    }
}

fn leap_at(places: &[RecordNotes], number: usize) -> Leap {
    if number < places.len() {
        places[number].leap
    } else {
        Leap {
            to: short(number),
            over: 0,
        }
    }
}

/// A record of a side close before another one in its walk, at `g`: where a run of erased ones begins that is passed over
/// from there, if there is one.
pub fn near(links: &Links, front: bool, newest: usize, number: usize, g: u64) -> usize {
    let above = lowest_above(links, front, newest, number);
    let close = match older(links, front, above) {
        Some(below) if !front && number < above => below,
        Some(_) | None => above,
    };
    passed_from(links.places.as_slice(), close, g)
}

/// The lowest record of a side above a number, from its newest one on.
fn lowest_above(links: &Links, front: bool, newest: usize, number: usize) -> usize {
    let mut at = newest;
    while let Some(to) = lower(links, front, at, number) {
        at = to;
    }
    at
}

/// An older record of the side that is still above a number.
fn lower(links: &Links, front: bool, at: usize, number: usize) -> Option<usize>
    ensures { IfSome result (λ to. to < at) }
{
    let to = leap_at(links.places.as_slice(), at).to as usize;
    if number < to && to < at {
        return Some(to);
    }
    let below = older(links, front, at)?;
    if number < below && below < at {
        Some(below)
    } else {
        None
    }
}

/// The record of the side before one.
fn older(links: &Links, front: bool, number: usize) -> Option<usize> {
    if front {
        wide(*links.next.get(number)?)
    } else {
        before(links.places.as_slice(), number)
    }
}
