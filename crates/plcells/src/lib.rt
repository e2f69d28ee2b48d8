//! Terms as cells of a heap, with bindings that can be undone.
//!
//! A heap stands for one term a cell. A binding puts a term in the place of a variable in all of them, and an undo to a mark gives back the heap as it was there. A binding is noted for the undo only where its cell is older than a mark in use.
#![tactic(auto)]

pub mod cell;
pub mod equation;
pub mod heap;
pub mod id;
pub mod laws;
pub mod occurs;
pub mod put;
pub mod take;
