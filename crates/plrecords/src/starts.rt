//! Starts: where the records of a place stand. Nothing but time depends on them.
use plevent::ClauseName;
use std::alloc::Global;

/// How many places one number is kept for.
const SPAN: u64 = 16;

/// How many numbers may be kept beside one for each record.
const SPARE: usize = 1024;

/// How many records there are before each span of places. The first batch, which has many clauses as a rule, stands before
/// the first span.
#[derive(Drop)]
pub struct Starts {
    numbers: Vec<usize>,
    /// The place of the last record.
    last: u64,
    /// How many updates of the first batch made no record before the last one that did: most declare, and stand first.
    bare: usize,
}

impl Starts {
    pub fn new(alloc: Global) -> Starts {
        Starts {
            numbers: Vec::new(alloc),
            last: 0,
            bare: 0,
        }
    }

    /// Takes note of one more record, of a name whose place is not below those before it. Nothing is noted where there is no
    /// memory for it, or the places are far more than the records.
    pub fn note(&mut self, name: ClauseName, number: usize) {
        self.last = name.place;
        if name.place == 0 {
            self.bare = (name.number as usize).wrapping_sub(number);
        }
        let spans = spans_to(name.place);
        if number.saturating_add(SPARE) < spans {
            return;
        }
        for _ in self.numbers.len()..spans {
            if self.numbers.push(number).is_err() {
                return;
            }
        }
    }

    /// Forgets the spans that begin above a place, which is that of the last record now.
    pub fn forget_above(&mut self, place: u64) {
        self.last = place;
        self.numbers.truncate(spans_to(place));
    }

    /// Where the record of a name may stand among so many: the last ones are of the last place.
    pub fn guess(&self, name: ClauseName, count: usize) -> usize {
        match name.place.checked_sub(1) {
            None => (name.number as usize).wrapping_sub(self.bare),
            Some(_) if name.place == self.last => count.wrapping_sub(1),
            Some(before) => self
                .guess_within(before, count)
                .wrapping_add(name.number as usize),
        }
    }

    /// Where the records of the place behind one may begin, as if the places of its span had equally many.
    fn guess_within(&self, before: u64, count: usize) -> usize {
        let span = (before / SPAN) as usize;
        let low = self.before(span, count);
        let among = self.before(span.saturating_add(1), count).wrapping_sub(low);
        low.wrapping_add(among.wrapping_mul((before % SPAN) as usize) / SPAN as usize)
    }

    /// How many of so many records there are before a span; all, where it is not noted.
    fn before(&self, span: usize, count: usize) -> usize {
        match self.numbers.get(span) {
            None => count,
            Some(number) => *number,
        }
    }
}

/// How many spans begin at a place or below.
fn spans_to(place: u64) -> usize {
    place.div_ceil(SPAN) as usize
}
