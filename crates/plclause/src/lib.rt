//! Clauses: heads, converted bodies, and the terms that spell them (ISO/IEC 13211-1 7.6).
#![tactic(auto)]

pub mod clause;
pub mod convert;
pub mod form;
pub mod lists;
pub mod named;
pub mod shared;
