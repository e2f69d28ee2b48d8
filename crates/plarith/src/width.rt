//! Results of 64 bits.
ghost use Rattle.std.specs.Prelude.{◌≡◌, ℤ, FitsSigned};
ghost use Rattle.std.specs.Int.{w64};
ghost use Rattle.std.specs.Option.{SomeIff};
ghost use Rattle.plarith.specs.Operations.{fitting};

use crate::error::{ArithError, Evaluated};

/// A result that is there exactly where it has 64 bits.
pub(crate) fn fitting(found: Option<i64>) -> Evaluated
    ensures { (z : ℤ) → SomeIff found (FitsSigned w64 z) z → result ≡ fitting z }
{
    found.ok_or(ArithError::IntOverflow)
}
