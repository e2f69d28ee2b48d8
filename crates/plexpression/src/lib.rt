//! Arithmetic expressions that stand in compiled clauses, evaluated from their nodes: they are not put on the heap.
#![tactic(auto)]

pub mod clause;
pub mod number;
pub mod pair;
mod standing;
