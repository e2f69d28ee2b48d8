//! Running a program: its threads are started, each is served by turns, and the journal of all is
//! kept. The history that this gives is legal and over, and each run in it follows its search.
#![tactic(auto)]

pub mod schedule;
mod thread;

pub use schedule::run_schedule;
