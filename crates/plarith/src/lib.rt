//! Arithmetic (ISO/IEC 13211-1 9): what expressions give on integers of 64 bits, and their evaluation.
//!
//! Which functors are evaluable the table of names tells by their numbers (`evaluable` of platoms). A further one is one more variant and one
//! more row there, a clause of the definition of what it gives, and its arm in `unary` or `binary`.
#![tactic(auto)]

pub mod binary;
mod division;
pub mod error;
pub mod evaluate;
pub mod operand;
mod power;
mod shift;
pub mod unary;
pub mod value;
mod width;
