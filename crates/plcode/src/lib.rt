//! Clauses in the form that the machine runs.
#![tactic(auto)]

pub mod body;
pub mod callee;
pub mod clause;
pub mod code;
pub mod compile;
pub mod draft;
pub mod goal;
pub mod index;
pub mod key;
pub mod lay;
pub mod node;
pub mod op;
pub mod program;
