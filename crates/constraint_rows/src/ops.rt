//! Signed permutation matrices by their rows, and where they carry a component.
use sign_moves::{NoMemory, Sign, Step, digit_row, times};
use std::alloc::Global;
use tensor_rank::{Comp, POWERS, Rank};

/// A signed permutation matrix by its rows: the column of the entry, whether it is -1, and the sign for the whole
/// tensor.
#[derive(Clone, Copy, Debug, PartialEq, Eq)]
pub struct PlainOp {
    pub images: [u8; 3],
    pub negates: [bool; 3],
    pub whole: Sign,
}

impl PlainOp {
    ghost use Rattle.std.specs.Prelude.{◌≡◌, ◌<◌, ◌≤◌, ℕ, IfOk};
    ghost use Rattle.constraint_rows.specs.OpRows.{IsOpRow, op_part, op_step};
    ghost use Rattle.constraint_rows.specs.PlainOps.{entry_sign, op_carried, op_sign, HasColumns};

    /// The sign of the entry of a row.
    fn entry_sign(&self, row: usize) -> Sign
        requires { row < 3 }
        ensures { result ≡ entry_sign self.now row }
    {
        if self.negates[row] {
            Sign::Minus
        } else {
            Sign::Plus
        }
    }

    /// Where the matrix carries a component, and with which sign.
    pub(crate) fn carry<R: Rank>(&self, c: Comp<R>) -> (Comp<R>, Sign)
        requires columns { HasColumns self.now }
        requires component { c < R.LEN }
        ensures carried { result.0 ≡ op_carried R.R self.now c }
        ensures sign { result.1 ≡ op_sign R.R self.now c }
    {
        let mut number = 0;
        let mut sign = Sign::Plus;
        for place in 0..R::R {
            let row = (c.digit(place) - 1) as usize;
            number = 3 * number + self.images[row] as usize;
            sign = times(sign, self.entry_sign(row));
        }
        (Comp::at(number), times(self.whole, sign))
    }

    /// What a digit less 1 contributes at a place of a weight.
    fn step(&self, weight: u16, digit: usize) -> Step
        requires columns { HasColumns self.now }
        requires weight { weight ≤ 243 }
        requires digit { digit < 3 }
        ensures { result ≡ op_step self.now weight digit }
    {
        Step {
            to: self.images[digit] as u16 * weight,
            sign: self.entry_sign(digit),
        }
    }

    /// What each digit at a place contributes to where the matrix carries a component of rank R, and to the sign.
    fn part<R: Rank>(&self, place: usize) -> [Step; 3]
        requires columns { HasColumns self.now }
        requires place { place < R.R }
        ensures { result ≡ op_part R.R self.now place }
    {
        let weight = POWERS[R::R - 1 - place];
        [
            self.step(weight, 0),
            self.step(weight, 1),
            self.step(weight, 2),
        ]
    }

    /// Where the matrix carries each component of rank R, and with which sign.
    pub(crate) fn row<R: Rank>(&self, alloc: Global) -> Result<Vec<Step>, NoMemory>
        requires { HasColumns self.now }
        ensures { IfOk result (λ row. IsOpRow R.R self.now row.items) }
    {
        let mut parts = [[Step {
            to: 0,
            sign: Sign::Plus,
        }; 3]; 6];
        for place in 0..R::R {
            parts[place] = self.part::<R>(place);
        }
        digit_row(alloc, &parts[..R::R], self.whole)
    }
}
