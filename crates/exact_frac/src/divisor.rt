//! Greatest common divisors in 64 bits.
ghost use Rattle.std.specs.Prelude.{◌≡◌, ◌<◌, ◌/◌, ◌%◌};
ghost use Rattle.std.specs.Int.{IsGcd};

/// The greatest common divisor, by Euclid.
pub fn gcd(a: u64, b: u64) -> u64
    requires { 0 < b }
    ensures divisor { IsGcd a b result }
    ensures positive { 0 < result }
{
    if b == 1 {
        return 1;
    }
    let mut x = a;
    let mut y = b;
    while y != 0 {
        let rest = x % y;
        x = y;
        y = rest;
    }
    x
}

/// The quotient, with no division of 128 bits where 64 are enough.
pub fn divided(n: u128, by: u64) -> u128
    requires { 0 < by }
    ensures { result ≡ n / by }
{
    if by == 1 {
        return n;
    }
    if n <= u64::MAX as u128 {
        return (n as u64 / by) as u128;
    }
    n / by as u128
}

/// The remainder, likewise.
pub fn remainder(n: u128, by: u64) -> u64
    requires { 0 < by }
    ensures { result ≡ n % by }
{
    if n <= u64::MAX as u128 {
        return n as u64 % by;
    }
    (n % by as u128) as u64
}
