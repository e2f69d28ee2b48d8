//! Powers (ISO/IEC 13211-1 9.3.1, 9.3.10).
ghost use Rattle.std.specs.Prelude.{◌≡◌, negsuc, unsigned_abs};
ghost use Rattle.std.specs.Int.{int_pow};
ghost use Rattle.plarith.specs.Operations.{power};

use crate::error::{ArithError, Evaluated};
use crate::width::fitting;

/// A power of -1, whatever the sign of the exponent is.
fn sign_power(y: i64) -> i64
    ensures { result ≡ int_pow (negsuc 0) (unsigned_abs y) }
{
    if y.unsigned_abs() % 2 == 0 { 1 } else { -1 }
}

/// `^`/2.
pub(crate) fn power(x: i64, y: i64) -> Evaluated
    ensures { result ≡ power x y }
{
    if x == 1 {
        return Ok(1);
    }
    if x == -1 {
        return Ok(sign_power(y));
    }
    if y < 0 {
        return Err(ArithError::NotFloat(x));
    }
    if y < 64 {
        return fitting(x.checked_pow(y as u32));
    }
    if x == 0 {
        return Ok(0);
    }
    Err(ArithError::IntOverflow)
}
