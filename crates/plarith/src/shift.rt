//! Shifts (ISO/IEC 13211-1 9.4.1, 9.4.2).
ghost use Rattle.std.specs.Prelude.{◌≡◌};
ghost use Rattle.plarith.specs.Operations.{shifted_left, shifted_right};

use crate::error::{ArithError, Evaluated};
use crate::width::fitting;

/// `<<`/2.
pub(crate) fn shifted_left(x: i64, y: i64) -> Evaluated
    ensures { result ≡ shifted_left x y }
{
    if y < 0 {
        return Err(ArithError::Undefined);
    }
    if y < 63 {
        return fitting(x.checked_mul(1 << y));
    }
    if x == 0 {
        return Ok(0);
    }
    if x == -1 && y == 63 {
        return Ok(i64::MIN);
    }
    Err(ArithError::IntOverflow)
}

/// `>>`/2.
pub(crate) fn shifted_right(x: i64, y: i64) -> Evaluated
    ensures { result ≡ shifted_right x y }
{
    if y < 0 {
        return Err(ArithError::Undefined);
    }
    Ok(x >> y.min(63))
}
