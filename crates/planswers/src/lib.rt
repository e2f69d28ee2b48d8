//! What calls of built-in predicates come to, over values of the heap: answers, errors, lists, texts, and equations with terms that are made.
#![tactic(auto)]

pub mod answer;
pub mod build;
pub mod equation;
pub mod error;
pub mod list;
pub mod text;
