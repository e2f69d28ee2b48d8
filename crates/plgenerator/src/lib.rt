//! The answers of built-in predicates that have several, one at a time: no list of them is made.
//!
//! A turn says which answers are left. What they are is a list by the definitions of the predicates; the next one is found over the values
//! of the arguments, and those that could not be unified with them are passed over.
#![tactic(auto)]

pub mod argument;
pub mod equation;
pub mod generator;
mod group;
pub mod part;
pub mod split;
mod text;
pub mod turn;
pub mod wanted;
