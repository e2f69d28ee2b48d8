//! Functors of one argument on integers.
ghost use Rattle.std.specs.Prelude.{◌≡◌};
ghost use Rattle.plarith.specs.Operations.{unary};

use crate::error::Evaluated;
use crate::width::fitting;
use platoms::evaluable::Unary;

/// What a functor gives for an integer.
pub fn apply(f: Unary, x: i64) -> Evaluated
    ensures { result ≡ unary f x }
{
    match f {
        Unary::Negate => fitting(x.checked_neg()),
        Unary::Keep => Ok(x),
        Unary::Absolute => fitting(x.checked_abs()),
        Unary::Sign => Ok(x.signum()),
        Unary::Complement => Ok(!x),
    }
}
