//! The error terms, each stated and made once.
#![tactic(auto)]

pub mod error;
