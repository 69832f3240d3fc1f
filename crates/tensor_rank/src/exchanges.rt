//! Exchanges of two blocks of indices, as moves of components.
ghost use Rattle.std.specs.Prelude.{◌≡◌, ◌<◌, ◌≤◌, ◌^◌};
ghost use Rattle.sign_moves.specs.Moves.{IsReversible};
ghost use Rattle.tensor_rank.specs.Exchanges.{exchange_moves};
ghost use Rattle.tensor_rank.specs.Within.{AllWithin};

use crate::components::{Comp, POWERS};
use crate::ranks::Rank;
use sign_moves::{Moves, NoMemory, Sign, Step, digit_row};
use std::alloc::Global;
use std::marker::PhantomData;

/// Two blocks of indices of one width, where they begin, and whether exchanging them negates each component.
#[derive(Clone, Copy, Debug, PartialEq, Eq)]
pub struct Exchange {
    pub first: u8,
    pub second: u8,
    pub width: u8,
    pub negates: bool,
}

impl Exchange {
    ghost use Rattle.std.specs.Prelude.{◌≡◌, ◌<◌, ◌≤◌, ◌^◌};
    ghost use Rattle.std.specs.Prelude.{IfOk};
    ghost use Rattle.tensor_rank.specs.Exchanges.{partner, exchanged, sign_of_exchange};
    ghost use Rattle.tensor_rank.specs.ExchangeRows.{IsExchangeRow, exchange_part};
    ghost use Rattle.tensor_rank.specs.Within.{IsWithin};

    /// The place that a place changes with.
    pub fn partner(&self, place: usize) -> usize
        requires order { self.now.first ≤ self.now.second }
        requires small { place < 2 ^ 32 }
        ensures { result ≡ partner self.now place }
    {
        let first = self.first as usize;
        let second = self.second as usize;
        let width = self.width as usize;
        if first <= place && place < first + width {
            place + (second - first)
        } else if second <= place && place < second + width {
            place - (second - first)
        } else {
            place
        }
    }

    /// Where the exchange carries a component.
    pub fn carry<R: Rank>(&self, c: Comp<R>) -> Comp<R>
        requires within { IsWithin R.R self.now }
        requires component { c < R.LEN }
        ensures { result ≡ exchanged R.R self.now c }
    {
        let mut number = 0;
        for place in 0..R::R {
            number = 3 * number + c.axis(self.partner(place));
        }
        Comp::at(number)
    }

    /// What each digit at a place contributes to where a component of rank R is carried.
    fn part<R: Rank>(&self, place: usize) -> [Step; 3]
        requires within { IsWithin R.R self.now }
        requires place { place < R.R }
        ensures { result ≡ exchange_part R.R self.now place }
    {
        let weight = POWERS[R::R - 1 - self.partner(place)];
        let sign = Sign::Plus;
        [
            Step { to: 0, sign },
            Step { to: weight, sign },
            Step {
                to: 2 * weight,
                sign,
            },
        ]
    }

    /// Where the exchange carries each component of rank R.
    fn row<R: Rank>(&self, alloc: Global) -> Result<Vec<Step>, NoMemory>
        requires within { IsWithin R.R self.now }
        ensures { IfOk result (λ row. IsExchangeRow R.R self.now row.items) }
    {
        let mut parts = [[Step {
            to: 0,
            sign: Sign::Plus,
        }; 3]; 6];
        for place in 0..R::R {
            parts[place] = self.part::<R>(place);
        }
        digit_row(alloc, &parts[..R::R], self.sign())
    }

    /// The sign of the exchange.
    pub fn sign(&self) -> Sign
        ensures { result ≡ sign_of_exchange self.now }
    {
        if self.negates {
            Sign::Minus
        } else {
            Sign::Plus
        }
    }
}

/// The exchanges of a list, as moves of the components of rank R.
#[derive(Drop)]
pub struct ExchangeMoves<'a, R: Rank> {
    exchanges: &'a [Exchange],
    of: PhantomData<R>,
    ghost within: { AllWithin R.R exchanges.now },
}

impl<'a, R: Rank> ExchangeMoves<'a, R> {
    /// Exchanges whose blocks lie apart and among the R index places.
    pub fn new(exchanges: &'a [Exchange]) -> ExchangeMoves<'a, R>
        requires { AllWithin R.R exchanges.now }
        ensures exchanges { result.exchanges.now ≡ exchanges.now }
        ensures reversible { IsReversible R.LEN (exchange_moves R.R exchanges.now) }
    {
        ExchangeMoves {
            exchanges,
            of: PhantomData,
        }
    }
}

impl<'a, R: Rank> Moves for ExchangeMoves<'a, R> {
    ghost use Rattle.tensor_rank.specs.Exchanges.{exchange_moves};

    ghost size = { λ m. R.LEN };

    ghost moves = { λ m. exchange_moves R.R m.exchanges.now };

    fn size(&self) -> usize {
        R::LEN
    }

    fn count(&self) -> usize {
        self.exchanges.len()
    }

    fn carry(&self, place: usize, c: usize) -> (usize, Sign) {
        let exchange = self.exchanges[place];
        let carried = exchange.carry(Comp::<R>::at(c));
        (carried.number() as usize, exchange.sign())
    }

    fn row(&self, alloc: Global, place: usize) -> Result<Vec<Step>, NoMemory> {
        self.exchanges[place].row::<R>(alloc)
    }
}
