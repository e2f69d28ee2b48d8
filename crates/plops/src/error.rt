//! Why an operator is not declared.
ghost use Rattle.std.specs.Prelude.{◌≡◌};
ghost use Rattle.plops.specs.declared.error.OpError.TheVariants.{NoMemory};

use std::alloc::{AllocError, AllocFailed};
use thiserror::Error;

/// Why an operator is not declared (8.14.3.3). Of several causes the first in this order is told.
#[derive(Clone, Copy, Debug, PartialEq, Eq, Error)]
pub enum OpError {
    /// The priority is above 1,200.
    #[error("no operator priority")]
    Priority,
    /// The name is `,`.
    #[error("the comma is an operator for good")]
    Comma,
    /// The name is `|`, `[]` or `{}`.
    #[error("a name that is never an operator")]
    Reserved,
    /// An infix operator would stand beside a postfix operator of the same name.
    #[error("both infix and postfix")]
    InfixPostfix,
    #[error("no memory")]
    NoMemory,
}

impl From<AllocError> for OpError {
    ghost from_gives = { λ _ e. e ≡ NoMemory };

    fn from(_: AllocError) -> OpError {
        OpError::NoMemory
    }
}

impl<T: Drop> From<AllocFailed<T>> for OpError {
    ghost from_gives = { λ _ e. e ≡ NoMemory };

    fn from(_: AllocFailed<T>) -> OpError {
        OpError::NoMemory
    }
}
