//! What a name with an arity is: a control construct, a built-in predicate, or neither.
//!
//! `rows::ROWS` is the one table of them. A further built-in predicate is one more row there, and one more variant in `kind`.
#![tactic(auto)]

pub mod kind;
pub mod rows;
pub mod table;
