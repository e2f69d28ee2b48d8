//! Why no term was read.
ghost use Rattle.std.specs.Prelude.{◌≡◌};
ghost use Rattle.plread.specs.declared.error.ReadError.TheVariants.{NoMemory};

use std::alloc::{AllocError, AllocFailed};

/// Why no term was read.
#[derive(Clone, Copy, Debug, PartialEq, Eq)]
pub enum ReadError {
    /// The tokens spell no term. The place is that of the first token.
    Syntax(usize),
    NoMemory,
}

impl From<AllocError> for ReadError {
    ghost from_gives = { λ _ e. e ≡ NoMemory };

    fn from(_error: AllocError) -> Self {
        ReadError::NoMemory
    }
}

impl<T: Drop> From<AllocFailed<T>> for ReadError {
    ghost from_gives = { λ _ e. e ≡ NoMemory };

    fn from(_error: AllocFailed<T>) -> Self {
        ReadError::NoMemory
    }
}
