//! The type `Root3`, and its operations.
use crate::text::text_of;
use exact_frac::Frac;
use smallvec::SmallVec;
use std::alloc::Global;
use std::marker::Model;

/// The number a + b√3.
#[derive(Clone, Copy, Debug)]
pub struct Root3 {
    pub a: Frac,
    pub b: Frac,
}

impl Model for Root3 {
    ghost use Rattle.tensor_defs.specs.Number.{Root3 as Parts};
    ghost use Rattle.root3_num.specs.Roots.{AreHeld};

    ghost Value = { Parts };

    ghost view = { λ r. record { a = r.a; b = r.b } };

    ghost invariant = { λ r. AreHeld (record { a = r.a; b = r.b }) };

    ghost inverse = { λ v. record { a = v.a; b = v.b } };
}

/// A fraction on the way to the exact result, or of the result, has a part that reaches 2^62.
#[derive(Clone, Copy, Debug, PartialEq, Eq, Drop)]
pub struct TooLarge;

impl From<exact_frac::TooLarge> for TooLarge {
    fn from(_: exact_frac::TooLarge) -> TooLarge {
        TooLarge
    }
}

impl Root3 {
    ghost use Rattle.std.specs.Prelude.{◌≡◌, ◌↔◌, IsTrue};
    ghost use Rattle.tensor_defs.specs.Number.{add, mul, neg, num_zero};
    ghost use Rattle.root3_num.specs.Roots.{value_of_root, AreHeld, IsHeldRoot};
    ghost use Rattle.root3_num.specs.Answers.{IsExactSum, IsExactProduct};
    ghost use Rattle.text_defs.specs.NumberTexts.{root3_text};

    /// The number a + b√3.
    pub fn of(a: Frac, b: Frac) -> Root3
        ensures parts { result ≡ record { a = a; b = b } }
        ensures value { IsHeldRoot (value_of_root (record { a = a; b = b })) result }
    {
        a.in_lowest_terms();
        b.in_lowest_terms();
        Root3 { a, b }
    }

    /// What is so of each number: both fractions are in lowest terms, and their parts are below 2^62.
    pub fn in_lowest_terms(&self)
        ensures held { AreHeld self.now }
        ensures value { IsHeldRoot (value_of_root self.now) self.now }
    {
        // a field that is read brings the invariant into the proof
        let _ = &self.a;
    }

    /// The number with the other sign.
    pub fn neg(&self) -> Root3
        ensures { IsHeldRoot (neg (value_of_root self.now)) result }
    {
        Root3::of(self.a.neg(), self.b.neg())
    }

    /// Whether it is 0.
    pub fn is_zero(&self) -> bool
        ensures { IsTrue result ↔ (value_of_root self.now ≡ num_zero) }
    {
        self.a.is_zero() && self.b.is_zero()
    }

    /// Whether two numbers are the same.
    pub fn same(&self, other: &Root3) -> bool
        ensures { IsTrue result ↔ (value_of_root self.now ≡ value_of_root other.now) }
    {
        same_fraction(&self.a, &other.a) && same_fraction(&self.b, &other.b)
    }

    /// The sum. It is refused exactly where one of its two fractions has a part that reaches 2^62.
    pub fn add(&self, other: &Root3) -> Result<Root3, TooLarge>
        ensures { IsExactSum (add (value_of_root self.now) (value_of_root other.now)) result }
    {
        let a = sum_of(&self.a, &other.a)?;
        let b = sum_of(&self.b, &other.b)?;
        Ok(Root3::of(a, b))
    }

    /// The difference, refused likewise.
    pub fn sub(&self, other: &Root3) -> Result<Root3, TooLarge>
        ensures { IsExactSum (add (value_of_root self.now) (neg (value_of_root other.now))) result }
    {
        self.add(&other.neg())
    }

    /// The product (a + b√3)(c + d√3). It is refused exactly where one of ac, bd, 3·bd, ac + 3bd, ad, bc, ad + bc has a part that
    /// reaches 2^62.
    pub fn mul(&self, other: &Root3) -> Result<Root3, TooLarge>
        ensures { IsExactProduct (value_of_root self.now) (value_of_root other.now) result }
    {
        let ac = product_of(&self.a, &other.a)?;
        let bd = product_of(&self.b, &other.b)?;
        let triple = product_of(&Frac::of_whole(3), &bd)?;
        let a = sum_of(&ac, &triple)?;
        let ad = product_of(&self.a, &other.b)?;
        let bc = product_of(&self.b, &other.a)?;
        let b = sum_of(&ad, &bc)?;
        Ok(Root3::of(a, b))
    }

    /// The text, with r3 for √3. It takes no memory.
    pub fn text(&self, alloc: Global) -> SmallVec<u8, 96>
        ensures text { result.items ≡ root3_text self.now }
        ensures inline { result.capacity ≡ 96 }
    {
        text_of(alloc, &self.a, &self.b)
    }
}

ghost use Rattle.std.specs.Prelude.{◌≡◌, ◌↔◌, IsTrue};
ghost use Rattle.tensor_defs.specs.Number.{add, mul, value_of};
ghost use Rattle.exact_frac.specs.Exact.{IsExact};

/// The sum of two fractions, with no reckoning where one of them is 0.
fn sum_of(a: &Frac, b: &Frac) -> Result<Frac, exact_frac::TooLarge>
    ensures { IsExact (add (value_of a.now) (value_of b.now)) result }
{
    a.in_lowest_terms();
    b.in_lowest_terms();
    if a.is_zero() {
        return Ok(*b);
    }
    if b.is_zero() {
        return Ok(*a);
    }
    a.add(b)
}

/// The product of two fractions, likewise.
fn product_of(a: &Frac, b: &Frac) -> Result<Frac, exact_frac::TooLarge>
    ensures { IsExact (mul (value_of a.now) (value_of b.now)) result }
{
    if a.is_zero() || b.is_zero() {
        return Ok(Frac::zero());
    }
    a.mul(b)
}

fn same_fraction(a: &Frac, b: &Frac) -> bool
    ensures { IsTrue result ↔ (a.now ≡ b.now) }
{
    a.num() == b.num() && a.den() == b.den()
}
