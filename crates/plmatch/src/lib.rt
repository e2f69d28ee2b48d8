//! Whether a pattern and a message have a unifier, where both are packed and apart in their variables.
#![tactic(auto)]

pub mod laws;
pub mod matcher;

pub use matcher::Matcher;
