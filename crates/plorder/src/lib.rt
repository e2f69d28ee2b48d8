//! The order of terms, and their variables, for values of the machine's heap.
#![tactic(auto)]

pub mod compare;
pub mod occurrences;
pub mod shape;
pub mod variables;
