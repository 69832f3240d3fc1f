//! Moves with a table of where each component is carried.
ghost use Rattle.std.specs.Prelude.{◌≡◌, ℕ, ◌<◌, ◌≤◌, IfOk, map};
ghost use Rattle.sign_moves.specs.Moves.{IsReversible};
ghost use Rattle.sign_moves.specs.Tabling.{IsStepRow, IsTabled};

use crate::memory::NoMemory;
use crate::moves::Moves;
use std::alloc::Global;
use tensor_defs::Sign;

/// Where a move carries a component, and with which sign.
#[derive(Clone, Copy, Debug, PartialEq, Eq)]
pub struct Step {
    pub to: u16,
    pub sign: Sign,
}

/// Moves written out for each component.
#[derive(Drop)]
pub struct Tabled<'a, M: Moves> {
    moves: &'a M,
    rows: Vec<Vec<Step>>,
    ghost told: { IsTabled (M.size moves.now) (M.moves moves.now) (map (λ row. row.items) rows.items) },
}

impl<'a, M: Moves> Tabled<'a, M> {
    /// Carries out each move at each component once, so that later reads cost nothing.
    pub fn new(alloc: Global, moves: &'a M) -> Result<Tabled<'a, M>, NoMemory>
        requires size { M.size moves.now ≤ 729 }
        requires reversible { IsReversible (M.size moves.now) (M.moves moves.now) }
        ensures { IfOk result (λ t. t.moves.now ≡ moves.now) }
    {
        let mut rows = Vec::with_capacity(alloc, moves.count())?;
        for place in 0..moves.count() {
            rows.push(moves.row(alloc, place)?)?;
        }
        Ok(Tabled { moves, rows })
    }
}

impl<'a, M: Moves> Moves for Tabled<'a, M> {
    ghost size = { λ t. M.size t.moves.now };

    ghost moves = { λ t. M.moves t.moves.now };

    fn size(&self) -> usize {
        self.moves.size()
    }

    fn count(&self) -> usize {
        self.rows.len()
    }

    fn carry(&self, place: usize, c: usize) -> (usize, Sign) {
        let step = self.rows[place][c];
        (step.to as usize, step.sign)
    }
}
