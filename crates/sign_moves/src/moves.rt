//! What carries components to one another with signs.
use crate::memory::NoMemory;
use crate::tabled::Step;
use std::alloc::Global;
use tensor_defs::Sign;

/// Moves that carry components, by their numbers, to one another, with signs.
pub trait Moves {
    ghost use Rattle.std.specs.Prelude.{◌≡◌, ◌<◌, ◌≤◌, ℕ, IfOk};
    ghost use Rattle.sign_moves.specs.Moves.{Moves as MoveTable};
    ghost use Rattle.sign_moves.specs.Tabling.{IsStepRow};

    /// How many components there are.
    ghost size: { Self → ℕ };

    /// How many moves there are, and where each carries a component.
    ghost moves: { Self → MoveTable };

    /// The number of components.
    fn size(&self) -> usize
        ensures { result ≡ size self.now };

    /// The number of moves.
    fn count(&self) -> usize
        ensures { result ≡ (moves self.now).count };

    /// Where a move carries a component, and with which sign.
    fn carry(&self, place: usize, c: usize) -> (usize, Sign)
        requires place { place < (moves self.now).count }
        requires component { c < size self.now }
        ensures component { result.0 ≡ (moves self.now).carried place c }
        ensures sign { result.1 ≡ (moves self.now).sign place c };

    /// Where a move carries each component, and with which sign. Moves that tell this faster than component by
    /// component write a body of their own.
    fn row(&self, alloc: Global, place: usize) -> Result<Vec<Step>, NoMemory>
        requires place { place < (moves self.now).count }
        requires small { size self.now ≤ 729 }
        requires stays { (c : ℕ) → c < size self.now → (moves self.now).carried place c < size self.now }
        ensures { IfOk result (λ row. IsStepRow (size self.now) (moves self.now) place row.items) }
    {
        let size = self.size();
        let mut row = Vec::with_capacity(alloc, size)?;
        for c in 0..size {
            let (to, sign) = self.carry(place, c);
            row.push(Step {
                to: to as u16,
                sign,
            })?;
        }
        Ok(row)
    }
}
