//! Which answers of a call are left.

/// A place in a text: how many characters and how many bytes stand before it.
#[derive(Clone, Copy)]
pub struct Offset {
    pub characters: u16,
    pub bytes: u16,
}

/// The parts of an atom from one on: where it begins, how many characters it has, and how many stand behind it.
#[derive(Clone, Copy)]
pub struct Part {
    pub offset: Offset,
    pub length: u16,
    pub after: u16,
}

/// The ways to divide a text from one on: where it is divided, and how many characters stand behind that place.
#[derive(Clone, Copy)]
pub struct Split {
    pub offset: Offset,
    pub after: u16,
}

/// The groups of terms that are left. The values of such a call are its arguments and behind them the groups, each one value: how many
/// arguments there are, and how many groups were passed.
#[derive(Clone, Copy)]
pub struct Groups {
    pub arguments: u16,
    pub passed: u32,
}

/// The answers that are left.
#[derive(Clone, Copy)]
pub enum Remaining {
    /// Of sub_atom/5 (ISO/IEC 13211-1 8.16.3).
    Part(Part),
    /// Of atom_concat/3 (8.16.2), whose third argument is divided.
    Split(Split),
    /// Of a predicate whose arguments are unified with one group of terms after another, as current_op/3 (8.14.4) and current_prolog_flag/2
    /// (8.17.2).
    Groups(Groups),
}
