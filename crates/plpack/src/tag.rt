//! The first bytes of items.

/// A variable, and its number of eight bytes.
pub const VARIABLE: u8 = 0;

/// An integer, and its value of eight bytes.
pub const INTEGER: u8 = 1;

/// An atom, and its name.
pub const ATOM: u8 = 2;

/// A compound, its arity of two bytes and its name.
pub const COMPOUND: u8 = 3;
