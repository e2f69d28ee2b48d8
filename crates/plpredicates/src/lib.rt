//! The built-in predicates over the values of the machine's heap: those on terms, and the one call of all of them.
//!
//! What each gives stands in the crate of their definitions. A further one is a row of the table of names, a clause of its topic's definition, and a function here, or in the crate of those on texts, output, operators and flags.
#![tactic(auto)]

pub mod arithmetic;
pub mod built_in;
mod order;
mod parts;
mod sorting;
mod terms;
mod tests;
