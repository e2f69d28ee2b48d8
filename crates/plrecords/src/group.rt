//! Groups: which run an erased record is in. Nothing but time depends on them.
ghost use Rattle.std.specs.Prelude.{length};
ghost use Rattle.plrecords.specs.Runs.{SameRuns};

use crate::runs::RecordNotes;

/// A group is a tree of the records of a run, in which the smaller of two that are joined goes below the larger. It tells records by 32 bits of
/// their numbers: where these are too few a run is passed over in more steps.
#[derive(Clone, Copy)]
pub struct Group {
    /// The record above this one; itself at the top.
    pub up: u32,
    /// At the top, how many records the group has, and with which one its run begins.
    pub size: u32,
    pub first: u32,
}

/// Two groups that were joined, by their tops, and where the run of the one above began.
#[derive(Clone, Copy)]
pub struct United {
    low: usize,
    top: usize,
    first: u32,
}

/// The number of a record in 32 bits, as far as these go.
pub(crate) fn short(number: usize) -> u32 {
    (number % (1 << 32)) as u32
}

/// The group of a record alone.
pub(crate) fn alone(number: usize) -> Group {
    Group {
        up: short(number),
        size: 1,
        first: short(number),
    }
}

/// The first record of the run that one is in; itself where it is not erased.
pub(crate) fn first_of(places: &[RecordNotes], number: usize) -> usize {
    group_at(places, top_of(places, number)).first as usize
}

/// The top of its group. No tree is higher than there are bits in a number.
fn top_of(places: &[RecordNotes], number: usize) -> usize {
    let mut at = number;
    for _ in 0..usize::BITS {
        let up = group_at(places, at).up as usize;
        if up == at {
            return at;
        }
        at = up;
    }
    at
}

fn group_at(places: &[RecordNotes], number: usize) -> Group {
    if number < places.len() {
        places[number].group
    } else {
        alone(number)
    }
}

/// Joins the groups of two records, of a run that begins with the first one.
pub(crate) fn unite(places: &mut [RecordNotes], first: usize, last: usize) -> United
    ensures same { SameRuns places.old places.new }
{
    let one = top_of(places, first);
    let other = top_of(places, last);
    let (low, top) = if group_at(places, one).size < group_at(places, other).size {
        (one, other)
    } else {
        (other, one)
    };
    let below = group_at(places, low);
    let was = group_at(places, top);
    let size = if low == top {
        was.size
    } else {
        was.size.wrapping_add(below.size)
    };
    set_group(
        places,
        low,
        Group {
            up: short(top),
            ..below
        },
    );
    set_group(
        places,
        top,
        Group {
            up: short(top),
            size,
            first: short(first),
        },
    );
    United {
        low,
        top,
        first: was.first,
    }
}

/// Separates two groups that were joined.
pub(crate) fn separate(places: &mut [RecordNotes], united: &United)
    ensures same { SameRuns places.old places.new }
{
    let (low, top) = (united.low, united.top);
    let below = group_at(places, low);
    let above = group_at(places, top);
    let size = if low == top {
        above.size
    } else {
        above.size.wrapping_sub(below.size)
    };
    set_group(
        places,
        low,
        Group {
            up: short(low),
            ..below
        },
    );
    set_group(
        places,
        top,
        Group {
            up: short(top),
            size,
            first: united.first,
        },
    );
}

fn set_group(places: &mut [RecordNotes], number: usize, group: Group)
    ensures same { SameRuns places.old places.new }
{
    if number < places.len() {
        places[number].group = group;
    }
}
