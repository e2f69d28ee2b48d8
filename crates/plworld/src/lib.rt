//! The sequential core: one journal, and what it says of threads and clauses. Every change is a
//! request that a row of the table answers, and adds at most one entry.
#![tactic(auto)]

pub mod laws;
pub mod rows;
pub mod world;

pub use world::World;
