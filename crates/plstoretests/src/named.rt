//! Names and keys of clauses.
use plevent::{ClauseName, Key};

/// The name of the clause of a number at a place.
pub(crate) fn name(place: u64, number: u64) -> ClauseName {
    ClauseName { place, number }
}

/// The key of a goal of p with this number as its first argument, or with a variable.
pub(crate) fn key(first: Option<i64>) -> Key {
    match first {
        None => Key::Any,
        Some(value) => Key::Int(value),
    }
}
