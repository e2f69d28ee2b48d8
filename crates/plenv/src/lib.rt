//! The variables of a search: a heap of terms, and the slots of the clauses that are being run.
//!
//! A clause that is called gets a run of slots, one for each of its variables. A slot is free as long as its variable stands nowhere but in
//! the clause, and then holds a value of the heap; no cell of the heap refers to a slot, so a run is given back as soon as nothing names it.
//! An undo to a mark gives back heap and slots as they were there.
#![tactic(auto)]

mod block;
pub mod env;
pub mod goals;
pub mod laws;
pub mod named;
pub mod put;
pub mod slot;
pub mod solve;
