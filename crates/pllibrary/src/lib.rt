//! The library: procedures in the standard's language that stand in each program that neither defines nor declares them.
#![tactic(auto)]

pub mod library;
pub mod text;
