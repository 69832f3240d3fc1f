//! Fractions in lowest terms from their parts.
ghost use Rattle.std.specs.Prelude.{◌≡◌, ◌<◌, ◌*◌, ◌^◌, unsigned_abs, ◌+ℤ◌, ◌*ℤ◌, pos};
ghost use Rattle.std.specs.Int.{IsGcd};
ghost use Rattle.tensor_defs.specs.Number.{over};
ghost use Rattle.exact_frac.specs.Held.{signed, opposite};
ghost use Rattle.exact_frac.specs.Exact.{IsExact};

use crate::divisor::{divided, gcd, remainder};
use crate::frac::{Frac, TooLarge};

const LIMIT: u128 = 4611686018427387904;

/// Whether two whole numbers have different signs.
pub fn differ_in_sign(p: i64, q: i64) -> bool
    ensures { result ≡ opposite p q }
{
    (p < 0) != (q < 0)
}

/// The sum p·n + q·m.
pub fn cross_sum(p: i64, n: u64, q: i64, m: u64) -> i128
    requires small_p { unsigned_abs p < 2 ^ 62 }
    requires small_n { n < 2 ^ 62 }
    requires small_q { unsigned_abs q < 2 ^ 62 }
    requires small_m { m < 2 ^ 62 }
    ensures { result ≡ (p *ℤ pos n) +ℤ (q *ℤ pos m) }
{
    p as i128 * n as i128 + q as i128 * m as i128
}

/// A magnitude with a sign.
pub fn with_sign(negative: bool, size: u64) -> i64
    requires { size < 2 ^ 62 }
    ensures { result ≡ signed negative size }
{
    if negative {
        -(size as i64)
    } else {
        size as i64
    }
}

/// A fraction from parts that are in lowest terms.
pub fn from_lowest(negative: bool, top: u128, bottom: u128) -> Result<Frac, TooLarge>
    requires positive { 0 < bottom }
    requires lowest { IsGcd top bottom 1 }
    ensures { IsExact (over (signed negative top) bottom) result }
{
    if top >= LIMIT || bottom >= LIMIT {
        return Err(TooLarge);
    }
    Ok(Frac::of_parts(with_sign(negative, top as u64), bottom as u64))
}

/// A fraction from parts of 64 bits.
pub fn lowered(negative: bool, top: u64, bottom: u64) -> Result<Frac, TooLarge>
    requires { 0 < bottom }
    ensures { IsExact (over (signed negative top) bottom) result }
{
    if bottom == 1 {
        return from_lowest(negative, top as u128, 1);
    }
    let common = gcd(top, bottom);
    from_lowest(
        negative,
        divided(top as u128, common),
        divided(bottom as u128, common),
    )
}

/// The fraction sum/(rest·common), where sum and rest have no divisor in common.
pub fn lowered_sum(sum: i128, rest: u128, common: u64) -> Result<Frac, TooLarge>
    requires positive { 0 < rest }
    requires positive_common { 0 < common }
    requires fits { rest * common < 2 ^ 128 }
    requires apart { IsGcd (unsigned_abs sum) rest 1 }
    ensures { IsExact (over sum (rest * common)) result }
{
    let size = sum.unsigned_abs();
    let shared = gcd(remainder(size, common), common);
    from_lowest(
        sum < 0,
        divided(size, shared),
        rest * (common / shared) as u128,
    )
}
