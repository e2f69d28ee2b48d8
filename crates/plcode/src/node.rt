//! The nodes that the terms of clauses are held as.

/// A node. The blocks of a compound's arguments lie before its own, as on a heap, so a compound is put on a heap by one loop
/// that adds an offset. A block is a `Fun` with so many nodes behind it, one for each argument.
#[derive(Clone, Copy)]
pub enum Node {
    /// The variable with this slot.
    Var(u32),
    Int(i64),
    /// The atom with this number.
    Atom(u32),
    /// The head of a block: the number of its functor, and how many arguments stand behind.
    Fun(u32, u16),
    /// A compound: where its first block begins, and where its own does.
    Sub(u32, u32),
}
