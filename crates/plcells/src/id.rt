//! Numbers of cells, and places in the tables beside them.

ghost use Rattle.std.specs.Prelude.{◌≡◌, ℕ, ◌+◌, ◌<◌, ◌^◌};

use std::marker::Model;

/// A cell of a heap, by its number. Cells are numbered from 0 on, in the order in which they were put.
#[derive(Clone, Copy, Debug, PartialEq, Eq, PartialOrd, Ord)]
pub struct CellId {
    number: u32,
}

impl Model for CellId {
    ghost Value = { ℕ };

    ghost view = { λ c. c.number };

    ghost inverse = { λ n. record { number = n } };
}

impl CellId {
    /// The cell at a place among the cells.
    #[inline(always)]
    pub fn at(place: usize) -> CellId
        requires { place < 2 ^ 32 }
        ensures { result ≡ place }
    {
        CellId {
            number: place as u32,
        }
    }

    /// Its place among the cells.
    #[inline(always)]
    pub fn place(self) -> usize
        ensures is { result ≡ self }
        ensures few { result < 2 ^ 32 }
    {
        self.number as usize
    }

    /// The cell so many behind this one.
    #[inline(always)]
    pub fn after(self, count: u32) -> CellId
        requires { self + count < 2 ^ 32 }
        ensures { result ≡ self + count }
    {
        CellId {
            number: self.number + count,
        }
    }

    /// The argument of a number, from 1 on, of the block that begins here.
    #[inline(always)]
    pub fn arg(self, number: u32) -> CellId
        requires { self + number < 2 ^ 32 }
        ensures { result ≡ self + number }
    {
        self.after(number)
    }
}

/// The place of a variable's number among the numbers of a heap's variables.
#[derive(Clone, Copy, Debug, PartialEq, Eq)]
pub struct NumberPlace {
    place: u32,
}

impl Model for NumberPlace {
    ghost Value = { ℕ };

    ghost view = { λ p. p.place };

    ghost inverse = { λ n. record { place = n } };
}

impl NumberPlace {
    /// A place.
    #[inline(always)]
    pub fn new(place: usize) -> NumberPlace
        requires { place < 2 ^ 32 }
        ensures { result ≡ place }
    {
        NumberPlace {
            place: place as u32,
        }
    }

    /// The place as an index.
    #[inline(always)]
    pub fn get(self) -> usize
        ensures { result ≡ self }
    {
        self.place as usize
    }
}

/// The place of an integer among the wide integers of a heap.
#[derive(Clone, Copy, Debug, PartialEq, Eq)]
pub struct WidePlace {
    place: u32,
}

impl Model for WidePlace {
    ghost Value = { ℕ };

    ghost view = { λ p. p.place };

    ghost inverse = { λ n. record { place = n } };
}

impl WidePlace {
    /// A place.
    #[inline(always)]
    pub fn new(place: usize) -> WidePlace
        requires { place < 2 ^ 32 }
        ensures { result ≡ place }
    {
        WidePlace {
            place: place as u32,
        }
    }

    /// The place as an index.
    #[inline(always)]
    pub fn get(self) -> usize
        ensures { result ≡ self }
    {
        self.place as usize
    }
}
