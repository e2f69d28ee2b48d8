//! Numbers from text.
#![tactic(auto)]

pub mod number;
