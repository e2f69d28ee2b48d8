//! Numbers in the order of their first occurrence, where they are mostly few.
ghost use Rattle.std.specs.Prelude.{◌≡◌, [], length, IfOk, IfSome, OnOk};
ghost use Rattle.plterm.specs.Variables.{added, place};

use plterm::numbers::Numbers;
use std::alloc::{AllocError, Global};
use std::marker::Model;

/// So many numbers are looked through one after another.
const FEW: usize = 8;

/// Numbers, each once, in the order in which they came. The first ones take no room of their own.
#[derive(Drop)]
pub struct Seen {
    few: Vec<u64>,
    // Those behind the first ones.
    more: Numbers,
}

impl Model for Seen {
    ghost use Rattle.std.specs.Prelude.{◌≡◌, ◌<◌, ◌++◌, [], ℕ, List, length};
    ghost use Rattle.std.specs.Coded.{coded_list, coded_ℕ};

    ghost Value = { List ℕ };

    ghost coded = { coded_list coded_ℕ };

    ghost view = { λ a. a.few.items ++ a.more };

    ghost invariant = { λ a. length a.few.items < 8 → a.more ≡ [] };
}

impl Seen {
    /// No numbers.
    pub fn new(alloc: Global) -> Seen
        ensures { result ≡ [] }
    {
        Seen {
            few: Vec::new(alloc),
            more: Numbers::new(alloc),
        }
    }

    /// Forgets all numbers.
    pub fn clear(&mut self, alloc: Global)
        ensures { self.new ≡ [] }
    {
        self.few.clear();
        self.more = Numbers::new(alloc);
    }

    /// How many numbers there are; none where they are too many.
    pub fn count(&self) -> Option<u32>
        ensures { IfSome result (λ n. n ≡ length self.now) }
    {
        let few = self.few.len() as u64;
        match few.checked_add(self.more.count()) {
            None => None,
            Some(count) => match u32::try_from(count) {
                Ok(count) => Some(count),
                Err(_) => None,
            },
        }
    }

    /// The place of a number, which is added if it is new.
    pub fn place_of(&mut self, number: u64) -> Result<u64, AllocError>
        ensures place { IfOk result (λ found. found ≡ place number self.old) }
        ensures ok { OnOk result (self.new ≡ added self.old number) }
    {
        let place = place_in(&self.few, number);
        if place < self.few.len() {
            return Ok(place as u64);
        }
        if place < FEW {
            self.few.push(number)?;
            return Ok(place as u64);
        }
        let behind = self.more.place_of(number)?;
        let Some(found) = behind.checked_add(place as u64) else {
            return Err(AllocError);
        };
        Ok(found)
    }
}

/// The place of a number, or how many there are.
fn place_in(few: &[u64], number: u64) -> usize
    ensures { result ≡ place number few.now }
{
    for i in 0..few.len() {
        if few[i] == number {
            return i;
        }
    }
    few.len()
}
