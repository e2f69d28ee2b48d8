//! Heads of compiled clauses, unified with the arguments of a call.
//!
//! No head is put on the heap: its nodes are compared with the arguments, a variable that stands in the head for the first time takes what
//! it meets, and a compound is put only where it meets a variable.
#![tactic(auto)]

pub mod compare;
pub mod head;
pub mod work;
