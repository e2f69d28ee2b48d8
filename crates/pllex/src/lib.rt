//! The tokens of program text (ISO/IEC 13211-1 6.4): layout and comments are passed over, and each token is the
//! longest that can stand at its place.
#![tactic(auto)]

pub mod characters;
pub mod clause;
pub mod digits;
pub mod error;
pub mod escape;
pub mod item;
pub mod layout;
pub mod number;
pub mod quoted;
pub mod runs;
pub mod token;
pub mod value;
