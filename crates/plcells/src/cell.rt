//! The cells.

use crate::id::{CellId, NumberPlace, WidePlace};

/// A cell, of 8 bytes. No kind of cell holds more than one number.
#[derive(Clone, Copy)]
pub enum Cell {
    /// An unbound variable, by the place of its number.
    Free(NumberPlace),
    /// An unbound variable to which no other cell refers.
    Lone(NumberPlace),
    /// The term of another cell, which is no block.
    Ref(CellId),
    /// An integer of 32 bits.
    Int(i32),
    /// An integer, by its place among the wide ones.
    Wide(WidePlace),
    /// An atom, by the number of its name.
    Atom(u32),
    /// The compound whose block begins at a cell.
    Str(CellId),
    /// The first cell of a block: a functor by its number. The arguments are the cells behind it.
    Fun(u32),
    /// The same, of a compound in which no variable can stand, now and later.
    Ground(u32),
}

/// An argument of a new block.
#[derive(Clone, Copy)]
pub enum Argument {
    /// A value.
    Value(Cell),
    /// A new variable of this number, which stands in the block.
    Variable(u64),
}

/// A variable that was bound: its cell, and the place of its number.
#[derive(Clone, Copy)]
pub struct Trailed {
    pub cell: CellId,
    pub place: NumberPlace,
}

/// How much of a heap there was.
#[derive(Clone, Copy)]
pub struct Mark {
    pub cells: usize,
    pub trail: usize,
    pub numbers: usize,
    pub wide: usize,
}
