//! Terms from tokens (ISO/IEC 13211-1 6.3): an operator precedence reader with a stack of open levels.
#![tactic(auto)]

pub mod clause;
pub mod error;
pub mod frame;
pub mod input;
pub mod lists;
pub mod looks;
pub mod read;
pub mod reader;
pub mod token;
pub mod variables;
pub mod words;
