//! The clauses of all batches, each with the place of its erasure: the database at every time.
#![tactic(auto)]

mod asked;
mod chain;
pub mod draft;
pub mod laws;
mod named;
mod plan;
pub mod query;
mod sought;
mod steps;
pub mod store;
mod tables;
mod trail;
mod walk;

pub use draft::Draft;
pub use query::{Found, Query};
pub use store::Store;
