//! The slots of clauses.

use plcells::cell::{Cell, Mark as HeapMark};

/// What a variable of a clause stands for: nothing yet, or a value.
#[derive(Clone, Copy)]
pub enum Slot {
    /// A variable of this number, which stands nowhere else.
    Free(u64),
    /// A value of the heap.
    Set(Cell),
}

/// A slot that was set, and the number of its variable.
#[derive(Clone, Copy)]
pub struct Noted {
    pub slot: u32,
    pub number: u64,
}

/// How much of an environment there was.
#[derive(Clone, Copy)]
pub struct Mark {
    pub heap: HeapMark,
    pub slots: usize,
    pub noted: usize,
    pub count: u64,
}

/// A row of terms of compiled clauses: so many nodes from a place on.
#[derive(Clone, Copy, Debug, PartialEq, Eq)]
pub struct Row {
    pub at: u32,
    pub count: u16,
}
