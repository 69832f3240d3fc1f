//! The type `Frac`, and its operations.
use crate::divisor::gcd;
use crate::lowest::{cross_sum, differ_in_sign, from_lowest, lowered, lowered_sum, with_sign};
use crate::text::append;
use itoa::Buffer;
use smallvec::SmallVec;
use std::alloc::Global;
use std::marker::Model;
use thiserror::Error;

/// A fraction in lowest terms, with a positive denominator, whose parts have magnitudes below 2^62.
#[derive(Clone, Copy, Debug)]
pub struct Frac {
    num: i64,
    den: u64,
}

impl Model for Frac {
    ghost use Rattle.tensor_defs.specs.Number.{Fraction};
    ghost use Rattle.exact_frac.specs.Held.{IsHeld};

    ghost Value = { Fraction };

    ghost view = { λ f. record { num = f.num; den = f.den } };

    ghost invariant = { λ f. IsHeld (record { num = f.num; den = f.den }) };

    ghost inverse = { λ v. record { num = v.num; den = v.den } };
}

/// The exact result has a numerator or a denominator that reaches 2^62.
#[derive(Clone, Copy, Debug, PartialEq, Eq, Drop)]
pub struct TooLarge;

/// Why two whole numbers make no fraction.
#[derive(Clone, Copy, Debug, PartialEq, Eq, Drop, Error)]
pub enum FracFault {
    #[error("the denominator is 0")]
    ZeroDenominator,
    #[error("a part of the fraction in lowest terms reaches 2^62")]
    TooLarge,
}

impl Frac {
    ghost use Rattle.std.specs.Prelude.{◌≡◌, ◌≢◌, ◌↔◌, ◌<◌, ◌≤◌, IsTrue, pos, neg_ℤ, unsigned_abs, length};
    ghost use Rattle.tensor_defs.specs.Number.{add, mul, neg, num_zero, num_one, whole, value_of, one_over_one, limit, ReachesLimit};
    ghost use Rattle.exact_frac.specs.Held.{IsHeld, IsHeldAs, inverse_of, zero_over_one, one_over_two};
    ghost use Rattle.exact_frac.specs.Exact.{IsExact, IsNew};
    ghost use Rattle.text_defs.specs.NumberTexts.{fraction_text};

    /// The fraction num/den. It is refused at the denominator 0, and where a part reaches 2^62 in lowest terms.
    pub fn new(num: i64, den: i64) -> Result<Frac, FracFault>
        ensures { IsNew num den result }
    {
        if den == 0 {
            return Err(FracFault::ZeroDenominator);
        }
        match lowered(
            differ_in_sign(num, den),
            num.unsigned_abs(),
            den.unsigned_abs(),
        ) {
            Ok(fraction) => Ok(fraction),
            Err(_) => Err(FracFault::TooLarge),
        }
    }

    /// The number 0.
    pub fn zero() -> Frac
        ensures value { IsHeldAs num_zero result }
        ensures parts { result ≡ zero_over_one }
    {
        Frac::of_parts(0, 1)
    }

    /// The number 1.
    pub fn one() -> Frac
        ensures value { IsHeldAs num_one result }
        ensures parts { result ≡ one_over_one }
    {
        Frac::of_parts(1, 1)
    }

    /// The number 1/2.
    pub fn half() -> Frac
        ensures { result ≡ one_over_two }
    {
        Frac::of_parts(1, 2)
    }

    /// A whole number.
    pub fn of_whole(n: i64) -> Frac
        requires { unsigned_abs n < limit }
        ensures value { IsHeldAs (whole n) result }
        ensures parts { result ≡ record { num = n; den = 1 } }
    {
        Frac::of_parts(n, 1)
    }

    /// What is so of each fraction: it is in lowest terms, and its parts are below 2^62.
    pub fn in_lowest_terms(&self)
        ensures held { IsHeld self.now }
        ensures below { ReachesLimit (value_of self.now) → ⊥ }
    {
        // a field that is read brings the invariant into the proof
        let _ = &self.num;
    }

    /// The numerator.
    pub fn num(&self) -> i128
        ensures { result ≡ self.now.num }
    {
        self.num as i128
    }

    /// The denominator, which is positive.
    pub fn den(&self) -> i128
        ensures { result ≡ pos self.now.den }
    {
        self.den as i128
    }

    /// Whether it is 0.
    pub fn is_zero(&self) -> bool
        ensures { IsTrue result ↔ (value_of self.now ≡ num_zero) }
    {
        self.num == 0
    }

    /// The number with the other sign.
    pub fn neg(&self) -> Frac
        ensures value { IsHeldAs (neg (value_of self.now)) result }
        ensures parts { result ≡ record { num = neg_ℤ self.now.num; den = self.now.den } }
    {
        Frac::of_parts(-self.num, self.den)
    }

    /// The sum.
    pub fn add(&self, other: &Frac) -> Result<Frac, TooLarge>
        ensures { IsExact (add (value_of self.now) (value_of other.now)) result }
    {
        if self.den == other.den {
            let sum = self.num + other.num;
            return lowered(sum < 0, sum.unsigned_abs(), self.den);
        }
        let common = gcd(self.den, other.den);
        let left = self.den / common;
        let right = other.den / common;
        let sum = cross_sum(self.num, right, other.num, left);
        lowered_sum(sum, left as u128 * right as u128, common)
    }

    /// The difference.
    pub fn sub(&self, other: &Frac) -> Result<Frac, TooLarge>
        ensures { IsExact (add (value_of self.now) (neg (value_of other.now))) result }
    {
        self.add(&other.neg())
    }

    /// The product.
    pub fn mul(&self, other: &Frac) -> Result<Frac, TooLarge>
        ensures { IsExact (mul (value_of self.now) (value_of other.now)) result }
    {
        let size = self.num.unsigned_abs();
        let other_size = other.num.unsigned_abs();
        let negative = differ_in_sign(self.num, other.num);
        if self.den == 1 && other.den == 1 {
            return from_lowest(negative, size as u128 * other_size as u128, 1);
        }
        let first = gcd(size, other.den);
        let second = gcd(other_size, self.den);
        from_lowest(
            negative,
            (size / first) as u128 * (other_size / second) as u128,
            (self.den / second) as u128 * (other.den / first) as u128,
        )
    }

    /// The quotient.
    pub fn div(&self, other: &Frac) -> Result<Frac, TooLarge>
        requires { value_of other.now ≢ num_zero }
        ensures value { IsExact (mul (value_of self.now) (inverse_of other.now)) result }
        ensures inverse { mul (value_of other.now) (inverse_of other.now) ≡ num_one }
    {
        self.mul(&other.inverse())
    }

    /// The text: the numerator, and / with the denominator where that isn't 1. It takes no memory.
    pub fn text(&self, alloc: Global) -> SmallVec<u8, 48>
        ensures text { result.items ≡ fraction_text self.now }
        ensures short { length result.items ≤ 40 }
        ensures inline { result.capacity ≡ 48 }
    {
        let mut out = SmallVec::new(alloc);
        append(&mut out, Buffer::new().format(self.num).as_bytes());
        if self.den != 1 {
            out.push_reserved(b'/');
            append(&mut out, Buffer::new().format(self.den).as_bytes());
        }
        out
    }

    fn inverse(&self) -> Frac
        requires { value_of self.now ≢ num_zero }
        ensures value { IsHeldAs (inverse_of self.now) result }
        ensures inverse { mul (value_of self.now) (inverse_of self.now) ≡ num_one }
    {
        Frac::of_parts(with_sign(self.num < 0, self.den), self.num.unsigned_abs())
    }

    pub(crate) fn of_parts(num: i64, den: u64) -> Frac
        requires { IsHeld (record { num = num; den = den }) }
        ensures { result ≡ record { num = num; den = den } }
    {
        Frac { num, den }
    }
}
