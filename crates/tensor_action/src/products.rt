//! Products of entries of operations, in whole numbers.
ghost use Rattle.std.specs.Prelude.{◌≡◌, ℕ, ◌*◌, ◌<◌, pos};
ghost use Rattle.tensor_defs.specs.Number.{half_of, mul, neg, num_one, num_zero, over};
ghost use Rattle.exact_frac.specs.Held.{IsHeldAs};
ghost use Rattle.root3_num.specs.Roots.{value_of_root};
ghost use Rattle.sign_moves.specs.Signs.{signed};
ghost use Rattle.tensor_action.specs.Factors.{IsWithin, entry_number, product_number};

use exact_frac::Frac;
use op_matrix::Entry;
use root3_num::Root3;
use sign_moves::times;
use tensor_rank::Sign;

/// The number (rational + root·√3)/below, with a sign.
#[derive(Clone, Copy)]
pub struct Product {
    pub sign: Sign,
    pub rational: u32,
    pub root: u32,
    pub below: u32,
}

/// The product of no entry, which is 1.
pub fn one() -> Product
    ensures value { product_number result ≡ num_one }
    ensures within { IsWithin 1 result }
{
    Product {
        sign: Sign::Plus,
        rational: 1,
        root: 0,
        below: 1,
    }
}

/// The number with the other sign.
fn negated(product: Product) -> Product
    ensures value { product_number result ≡ neg (product_number product) }
    ensures within { (b : ℕ) → IsWithin b product → IsWithin b result }
{
    Product {
        sign: times(Sign::Minus, product.sign),
        rational: product.rational,
        root: product.root,
        below: product.below,
    }
}

/// Half the number.
fn halved(product: Product) -> Product
    requires { IsWithin 243 product }
    ensures value { product_number result ≡ mul (product_number product) (half_of (pos 1) (pos 0)) }
    ensures within { (b : ℕ) → IsWithin b product → IsWithin (3 * b) result }
{
    Product {
        sign: product.sign,
        rational: product.rational,
        root: product.root,
        below: 2 * product.below,
    }
}

/// Half the number times √3.
fn turned(product: Product) -> Product
    requires { IsWithin 243 product }
    ensures value { product_number result ≡ mul (product_number product) (half_of (pos 0) (pos 1)) }
    ensures within { (b : ℕ) → IsWithin b product → IsWithin (3 * b) result }
{
    Product {
        sign: product.sign,
        rational: 3 * product.root,
        root: product.rational,
        below: 2 * product.below,
    }
}

/// The product with an entry 0.
fn nothing() -> Product
    ensures value { product_number result ≡ num_zero }
    ensures within { (b : ℕ) → 0 < b → IsWithin b result }
{
    Product {
        sign: Sign::Plus,
        rational: 0,
        root: 0,
        below: 1,
    }
}

/// The product with one more entry.
pub fn with_entry(product: Product, entry: Entry) -> Product
    requires { IsWithin 243 product }
    ensures value { product_number result ≡ mul (product_number product) (entry_number entry) }
    ensures within { (b : ℕ) → IsWithin b product → IsWithin (3 * b) result }
{
    match entry {
        Entry::One => product,
        Entry::HalfRoot3 => turned(product),
        Entry::Half => halved(product),
        Entry::Zero => nothing(),
        Entry::MinusHalf => negated(halved(product)),
        Entry::MinusHalfRoot3 => negated(turned(product)),
        Entry::MinusOne => negated(product),
    }
}

/// A fraction of whole numbers of 32 bits, with a sign.
fn signed_fraction(sign: Sign, top: u32, below: u32) -> Frac
    requires { 0 < below }
    ensures { IsHeldAs (signed sign (over (pos top) below)) result }
{
    if top == 0 {
        return Frac::zero();
    }
    let size = Frac::new(i64::from(top), i64::from(below)).unwrap();
    match sign {
        Sign::Plus => size,
        Sign::Minus => size.neg(),
    }
}

/// The number of a product, with one more sign.
pub fn number_of(product: Product, sign: Sign) -> Root3
    requires { 0 < product.below }
    ensures { value_of_root result ≡ signed sign (product_number product) }
{
    let sign = times(sign, product.sign);
    let rational = signed_fraction(sign, product.rational, product.below);
    let root = signed_fraction(sign, product.root, product.below);
    Root3::of(rational, root)
}

/// The number 0.
pub fn zero() -> Root3
    ensures { value_of_root result ≡ num_zero }
{
    Root3::of(Frac::zero(), Frac::zero())
}
