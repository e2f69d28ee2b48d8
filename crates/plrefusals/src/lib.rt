//! What control constructs and the predicates on clauses refuse: the goals and procedures that errors are about, and what is no head, no body,
//! no name, not changed and not told.
#![tactic(auto)]

pub mod naming;
pub mod predicate;
pub mod refusal;
pub mod value;
