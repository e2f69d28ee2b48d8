//! The copies that findall/3 keeps until its goal has no further solution.
#![tactic(auto)]

pub mod collection;
pub mod copy;
pub mod list;
mod seen;
