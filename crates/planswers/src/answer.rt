//! What calls of built-in predicates come to.

use plcells::cell::Cell;
use plcells::equation::Equation;
use plgenerator::turn::Remaining;
use plprogram::settings::Settings;
use plterm::term::Term;

/// What a call of a built-in predicate comes to.
#[derive(Drop)]
pub enum Answer {
    /// This error is raised.
    Raises(Term),
    /// It has no solution.
    Fails,
    /// It is true.
    Succeeds,
    /// It is true where the terms of two values are unified.
    Unifies(Cell, Cell),
    /// It is true where the terms of two values have no unifier.
    Differs(Cell, Cell),
    /// It is true where the term of a value is unified with an integer.
    Equals(Cell, i64),
    /// It is true where the two terms of an equation are unified.
    Solves(Equation),
    /// Its answers are those of a turn over the values of the arguments: there are none, or at least two.
    Several(Vec<Cell>, Remaining),
    /// It is true where the terms of some values are unified, together, with one of some terms after another. These have no variables, and there is not just one.
    Groups(Vec<Cell>, Vec<Term>),
    /// It is true once these bytes are written.
    Writes(Vec<u8>),
    /// It is true, and these are the operators and flags from then on.
    Sets(Settings),
}
