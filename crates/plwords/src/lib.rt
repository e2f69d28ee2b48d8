//! The words of a command line, read by one command of `clap`.
#![tactic(auto)]

mod arguments;
pub mod form;
pub mod words;
