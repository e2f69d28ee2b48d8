//! The built-in predicates on texts, output, operators and flags, over values of the heap.
#![tactic(auto)]

pub mod atoms;
mod current;
pub mod flags;
mod format;
pub mod output;
mod pieces;
