//! What a goal that is selected makes of the search's machine: the rows of the table of control.
#![tactic(auto)]

pub mod arithmetic;
pub mod asking;
pub mod built_in;
pub mod candidate;
pub mod clauses;
pub mod finding;
mod list;
pub mod machine;
pub mod rows;
pub mod running;
pub mod seek;
pub mod select;
pub mod several;
pub mod sought;
pub mod step;
pub mod term;
pub mod walk;
pub mod within;
