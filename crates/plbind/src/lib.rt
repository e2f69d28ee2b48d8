//! Unification on the heap of the machine.
#![tactic(auto)]

pub mod apart;
pub mod unify;
