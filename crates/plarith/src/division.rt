//! Quotients and remainders (ISO/IEC 13211-1 9.1.7).
ghost use Rattle.std.specs.Prelude.{◌≡◌, int_div, int_rem};
ghost use Rattle.std.specs.Int.{w64, IsNonZero};
ghost use Rattle.plarith.specs.Integers.{modulo as modulus, remainder as rest, is_apart};
ghost use Rattle.plarith.specs.Operations.{divided, exact, fitting as bounded};

use crate::error::{ArithError, Evaluated};
use crate::width::fitting;

/// The quotient, rounded toward zero.
pub(crate) fn quotient(x: i64, y: i64) -> Evaluated
    ensures { result ≡ divided y (bounded (int_div x y)) }
{
    if y == 0 {
        return Err(ArithError::ZeroDivisor);
    }
    fitting(x.checked_div(y))
}

/// The quotient where nothing remains.
pub(crate) fn ratio(x: i64, y: i64) -> Evaluated
    ensures { result ≡ divided y (exact (rest x y) (int_div x y)) }
{
    if y == 0 {
        return Err(ArithError::ZeroDivisor);
    }
    if rest(x, y) == 0 {
        quotient(x, y)
    } else {
        Err(ArithError::Undefined)
    }
}

/// What remains of a division that rounds toward zero.
pub(crate) fn remainder(x: i64, y: i64) -> Evaluated
    ensures { result ≡ divided y (Ok (rest x y)) }
{
    if y == 0 {
        return Err(ArithError::ZeroDivisor);
    }
    Ok(rest(x, y))
}

fn rest(x: i64, y: i64) -> i64
    requires { IsNonZero w64 y }
    ensures is { result ≡ rest x y }
    ensures value { result ≡ int_rem x y }
{
    x.wrapping_rem(y)
}

/// What remains of a division that rounds down.
pub(crate) fn modulo(x: i64, y: i64) -> Evaluated
    ensures { result ≡ divided y (Ok (modulus x y)) }
{
    if y == 0 {
        return Err(ArithError::ZeroDivisor);
    }
    let rest = rest(x, y);
    if is_apart(rest, y) {
        Ok(rest + y)
    } else {
        Ok(rest)
    }
}

/// Whether an integer is not zero and another has the other sign; zero counts as above.
fn is_apart(x: i64, y: i64) -> bool
    ensures { result ≡ is_apart x y }
{
    if x > 0 { y < 0 } else { x < 0 && y >= 0 }
}
