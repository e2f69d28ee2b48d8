//! The depth-first search of a thread, which can stop and go on, over the machine of a search.
#![tactic(auto)]

mod answers;
mod begin;
mod catch;
mod fetch;
pub mod laws;
mod look;
pub mod progress;
pub mod shared;
pub mod solver;
mod start;
mod step;
mod sweep;
mod text;
mod transact;
mod turns;
mod walk;
