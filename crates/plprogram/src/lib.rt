//! A loaded program: its static procedures, the goals of main, the first batch of the journal, and the operators and flags at its end.
#![tactic(auto)]

pub mod change;
mod library;
pub mod program;
pub mod settings;
