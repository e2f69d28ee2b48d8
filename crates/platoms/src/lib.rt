//! Names by number.
//!
//! A table gives each name of an atom a number, and each name with an arity another, in the order in which they were first asked for. Numbers stay as they are, whatever comes behind them. The number of a functor tells what it evaluates to. A table that is frozen shares its names with its copies, each of which puts its own behind them.
#![tactic(auto)]

pub mod atoms;
pub mod evaluable;
pub mod functors;
pub mod names;
