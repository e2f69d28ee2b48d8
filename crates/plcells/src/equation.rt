//! Pairs of terms that are to be unified.

use crate::cell::Cell;
use plterm::term::Term;

/// Two terms that are to be unified. Their variables stand for values of a heap, by their places, and behind these for new variables.
#[derive(Drop)]
pub struct Equation {
    pub left: Term,
    pub right: Term,
    pub values: Vec<Cell>,
    /// How many new variables there are.
    pub new: u32,
}
