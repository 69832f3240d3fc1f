//! Components of a typed rank, by their numbers and their axes.
ghost use Rattle.std.specs.Prelude.{◌≡◌, ℕ, ◌+◌, ◌^◌, ◌<◌, ◌≤◌, IsNone, IfSome, ◌↔◌, get_or};
ghost use Rattle.tensor_defs.specs.Operation.{x1};
ghost use Rattle.tensor_defs.specs.Tensor.{digit, index_of};
ghost use Rattle.tensor_rank.specs.Digits.{digit_of};

use crate::ranks::Rank;
use std::marker::{Model, PhantomData};

/// The powers of 3 below 3 ^ 6.
pub const POWERS: [u16; 6] = [1, 3, 9, 27, 81, 243];

/// A component of a tensor of rank R, by its number in index order, from 0: the first index is the most significant,
/// and an index digit d stands for d - 1.
#[derive(Clone, Copy)]
pub struct Comp<R: Rank> {
    number: u16,
    of: PhantomData<R>,
}

impl<R: Rank> Model for Comp<R> {
    ghost Value = { ℕ };

    ghost view = { λ c. c.number };

    ghost invariant = { λ c. c.number < R.LEN };

    ghost inverse = { λ n. record { number = n; of = record {} } };
}

impl<R: Rank> Comp<R> {
    /// The component of a number, if it is one of rank R.
    pub fn from_number(number: u16) -> Option<Comp<R>>
        ensures none { IsNone result ↔ (R.LEN ≤ number) }
        ensures value { IfSome result (λ c. c ≡ number) }
    {
        if (number as usize) < R::LEN {
            Some(Comp {
                number,
                of: PhantomData,
            })
        } else {
            None
        }
    }

    /// The component of a number that is known to be one of rank R.
    pub fn at(number: usize) -> Comp<R>
        requires { number < R.LEN }
        ensures { result ≡ number }
    {
        Comp {
            number: number as u16,
            of: PhantomData,
        }
    }

    /// The number of this component.
    pub fn number(&self) -> u16
        ensures same { result ≡ self.now }
        ensures in_range { result < R.LEN }
    {
        self.number
    }

    /// The index digit less 1 at a place.
    pub(crate) fn axis(&self, place: usize) -> usize
        requires { place < R.R }
        ensures value { result ≡ digit_of R.R self.now place }
        ensures in_range { result ≤ 2 }
        ensures component { self.now < R.LEN }
    {
        (self.number / POWERS[R::R - 1 - place] % 3) as usize
    }

    /// The index digit, 1 to 3, at a place.
    pub fn digit(&self, place: usize) -> u8
        requires { place < R.R }
        ensures value { result ≡ digit (get_or (index_of R.R self.now) place x1) }
        ensures in_range { (1 ≤ result) × (result ≤ 3) }
    {
        self.axis(place) as u8 + 1
    }
}
