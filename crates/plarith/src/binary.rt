//! Functors of two arguments on integers.
ghost use Rattle.std.specs.Prelude.{◌≡◌};
ghost use Rattle.plarith.specs.Operations.{binary};

use crate::division::{modulo, quotient, ratio, remainder};
use crate::error::Evaluated;
use crate::power::power;
use crate::shift::{shifted_left, shifted_right};
use crate::width::fitting;
use platoms::evaluable::Binary;

/// What a functor gives for two integers.
pub fn apply(f: Binary, x: i64, y: i64) -> Evaluated
    ensures { result ≡ binary f x y }
{
    match f {
        Binary::Add => fitting(x.checked_add(y)),
        Binary::Subtract => fitting(x.checked_sub(y)),
        Binary::Multiply => fitting(x.checked_mul(y)),
        Binary::Quotient => quotient(x, y),
        Binary::Divide => ratio(x, y),
        Binary::Remainder => remainder(x, y),
        Binary::Modulo => modulo(x, y),
        Binary::Power => power(x, y),
        Binary::ShiftLeft => shifted_left(x, y),
        Binary::ShiftRight => shifted_right(x, y),
        Binary::And => Ok(x & y),
        Binary::Or => Ok(x | y),
        Binary::Maximum => Ok(x.max(y)),
        Binary::Minimum => Ok(x.min(y)),
    }
}
