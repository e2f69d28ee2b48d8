//! What the built-in predicates give: definitions alone, in a file for each topic.
//!
//! A further built-in predicate is a row of the table of names, a clause of its topic's definition here, and a function of the crate that
//! carries them out.
#![tactic(auto)]
