//! Where the record of a name stands.
ghost use Rattle.std.specs.Prelude.{◌≡◌, ◌<◌, ◌≤◌, true, MatchOption};
ghost use Rattle.plrecords.specs.Rising.{less, IsRising, NoneIs, OneIs};

use plevent::ClauseName;
use plrecords::record::Record;
use plrecords::starts::Starts;

/// Which record is looked at next.
#[derive(Clone, Copy)]
enum Aim {
    /// One that is guessed.
    At(usize),
    /// So far above the last one.
    Above(usize),
    /// So far below the last one.
    Below(usize),
}

/// Where the record of a name stands, mostly where it is guessed.
pub(crate) fn find(records: &[Record], starts: &Starts, name: ClauseName) -> Option<usize>
    requires { IsRising records.now }
    ensures { MatchOption result (NoneIs name records.now) (λ i. OneIs name records.now i) }
{
    let guess = starts.guess(name, records.len());
    if is_at(records, guess, name) {
        return Some(guess);
    }
    find_from(records, guess, name)
}

/// Whether the record of a name stands at a number.
fn is_at(records: &[Record], number: usize, name: ClauseName) -> bool
    requires { IsRising records.now }
    ensures { result ≡ true → OneIs name records.now number }
{
    match records.get(number) {
        Some(record) => record.name.number == name.number && record.name.place == name.place,
        None => false,
    }
}

/// Where the record of a name stands: it is looked for from a guess on, in steps that grow, and then by halves.
fn find_from(records: &[Record], guess: usize, name: ClauseName) -> Option<usize>
    requires { IsRising records.now }
    ensures { MatchOption result (NoneIs name records.now) (λ i. OneIs name records.now i) }
{
    let mut low = 0;
    let mut high = records.len();
    let mut aim = Aim::At(guess);
    while low < high {
        let middle = aim.within(low, high);
        let found = records[middle].name;
        if precedes(found, name) {
            low = middle + 1;
            aim = aim.above();
        } else if precedes(name, found) {
            high = middle;
            aim = aim.below();
        } else {
            return Some(middle);
        }
    }
    None
}

impl Aim {
    /// The record from `low` to `high` that is looked at: at most half of the way from the last one.
    fn within(self, low: usize, high: usize) -> usize
        requires { low < high }
        ensures above { low ≤ result }
        ensures below { result < high }
    {
        let half = (high - low) / 2;
        match self {
            Aim::At(number) => number.clamp(low, high - 1),
            Aim::Above(far) if far < half => low + far,
            Aim::Below(far) if far < half => high - 1 - far,
            Aim::Above(_) | Aim::Below(_) => low + half,
        }
    }

    /// Above the last one, twice as far as before.
    fn above(self) -> Aim {
        Aim::Above(self.farther())
    }

    fn below(self) -> Aim {
        Aim::Below(self.farther())
    }

    fn farther(self) -> usize {
        match self {
            Aim::At(_) => 0,
            Aim::Above(far) | Aim::Below(far) => far.wrapping_add(far).wrapping_add(1),
        }
    }
}

fn precedes(x: ClauseName, y: ClauseName) -> bool
    ensures { result ≡ less x y }
{
    x.place < y.place || x.place == y.place && x.number < y.number
}
