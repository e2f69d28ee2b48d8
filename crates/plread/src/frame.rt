//! The open levels of a reading.

use plops::operator::{Infix, Prefix};

/// An open level: a bracket, or an operator that waits for its right operand. Names are places among the words.
#[derive(Clone, Copy, Debug, PartialEq, Eq)]
pub enum Frame {
    Bracket,
    Curly,
    /// A list, of which so many elements are complete.
    Elements(u64),
    /// The tail of a list, behind so many elements.
    Tail(u64),
    /// The arguments of a name, of which so many are complete.
    Call(usize, u16),
    Before(usize, Prefix),
    Between(usize, Infix),
}
