//! Loading programs from their text, and listing them (ISO/IEC 13211-1 7.4).
#![tactic(auto)]

mod directive;
mod draft;
pub mod error;
pub mod goal;
pub mod load;
mod meaning;
mod next;
mod position;
mod taking;
