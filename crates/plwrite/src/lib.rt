//! The text of terms (ISO/IEC 13211-1 7.10.5).
#![tactic(auto)]

mod form;
mod names;
mod place;
pub mod style;
mod task;
mod text;
pub mod write;
mod writer;
