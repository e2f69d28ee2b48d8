//! Errors of evaluation (ISO/IEC 13211-1 7.9.2, 7.12.2, 9.1.4).
ghost use Rattle.std.specs.Prelude.{◌≡◌, IfOk};
ghost use Rattle.plarith.specs.Errors.{error_of};

use plerror::error::{evaluation_error, indicator_term, instantiation_error, type_error};
use plterm::indicator::Indicator;
use plterm::term::Term;
use std::alloc::{AllocError, Global};

/// Why an expression has no value.
#[derive(Drop)]
pub enum ArithError {
    /// A variable stands where a value is needed.
    Unbound,
    /// An atom, or a compound of a functor that is not evaluable.
    NotEvaluable(Indicator),
    /// This number would have to be a float.
    NotFloat(i64),
    /// The divisor is zero.
    ZeroDivisor,
    /// The operation is not defined there.
    Undefined,
    /// The result has more than 64 bits.
    IntOverflow,
}

/// What an expression comes to.
pub type Evaluated = Result<i64, ArithError>;

impl ArithError {
    /// Its term, the E of `error(E, PI)`.
    pub fn term(&self, alloc: Global) -> Result<Term, AllocError>
        ensures { IfOk result (λ t. t ≡ error_of self.now) }
    {
        match self {
            ArithError::Unbound => instantiation_error(alloc),
            ArithError::NotEvaluable(p) => {
                let culprit = indicator_term(alloc, p)?;
                type_error(alloc, "evaluable", culprit)
            }
            ArithError::NotFloat(x) => {
                let culprit = Term::int(alloc, *x)?;
                type_error(alloc, "float", culprit)
            }
            ArithError::ZeroDivisor => evaluation_error(alloc, "zero_divisor"),
            ArithError::Undefined => evaluation_error(alloc, "undefined"),
            ArithError::IntOverflow => evaluation_error(alloc, "int_overflow"),
        }
    }
}
