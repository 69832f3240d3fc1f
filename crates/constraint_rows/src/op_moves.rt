//! Signed permutation matrices as moves of components.
ghost use Rattle.std.specs.Prelude.{◌≡◌};
ghost use Rattle.constraint_rows.specs.PlainOps.{ArePermutations};

use crate::ops::PlainOp;
use sign_moves::{Moves, NoMemory, Sign, Step};
use std::alloc::Global;
use std::marker::PhantomData;
use tensor_rank::{Comp, Rank};

/// The matrices of a list, as moves of the components of rank R.
#[derive(Drop)]
pub struct OpMoves<'a, R: Rank> {
    ops: &'a [PlainOp],
    of: PhantomData<R>,
    ghost permutations: { ArePermutations ops.now },
}

impl<'a, R: Rank> OpMoves<'a, R> {
    pub fn new(ops: &'a [PlainOp]) -> OpMoves<'a, R>
        requires { ArePermutations ops.now }
        ensures { result.ops.now ≡ ops.now }
    {
        OpMoves {
            ops,
            of: PhantomData,
        }
    }
}

impl<'a, R: Rank> Moves for OpMoves<'a, R> {
    ghost use Rattle.constraint_rows.specs.PlainOps.{op_moves};

    ghost size = { λ m. R.LEN };

    ghost moves = { λ m. op_moves R.R m.ops.now };

    fn size(&self) -> usize {
        R::LEN
    }

    fn count(&self) -> usize {
        self.ops.len()
    }

    fn carry(&self, place: usize, c: usize) -> (usize, Sign) {
        let (carried, sign) = self.ops[place].carry(Comp::<R>::at(c));
        (carried.number() as usize, sign)
    }

    fn row(&self, alloc: Global, place: usize) -> Result<Vec<Step>, NoMemory> {
        self.ops[place].row::<R>(alloc)
    }
}
