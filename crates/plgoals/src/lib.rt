//! Terms of the machine's heap as goals.
//!
//! A goal is converted as ISO/IEC 13211-1 7.6.2 has it, and call/N adds arguments to a term (Cor.2 8.15.4). A term that stands for itself is answered as it is: nothing is put for it. What a goal is, is found by its number (7.8).
#![tactic(auto)]

pub mod callable;
pub mod extend;
pub mod form;
pub mod goal;
