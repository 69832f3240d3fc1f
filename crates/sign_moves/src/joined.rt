//! The moves of two lists as one list.
ghost use Rattle.std.specs.Prelude.{◌≡◌, ◌+◌, ◌<◌, ◌^◌};

use crate::memory::NoMemory;
use crate::moves::Moves;
use crate::tabled::Step;
use std::alloc::Global;
use tensor_defs::Sign;

/// The moves of two lists together.
#[derive(Drop)]
pub struct Joined<A: Moves + Drop, B: Moves + Drop> {
    first: A,
    second: B,
    ghost same_size: { A.size first ≡ B.size second },
    ghost few: { (A.moves first).count + (B.moves second).count < 2 ^ 64 },
}

impl<A: Moves + Drop, B: Moves + Drop> Joined<A, B> {
    /// The moves of the first list, and then those of the second.
    pub fn new(first: A, second: B) -> Joined<A, B>
        requires same_size { A.size first ≡ B.size second }
        requires few { (A.moves first).count + (B.moves second).count < 2 ^ 64 }
        ensures first { result.first ≡ first }
        ensures second { result.second ≡ second }
    {
        Joined { first, second }
    }
}

impl<A: Moves + Drop, B: Moves + Drop> Moves for Joined<A, B> {
    ghost use Rattle.sign_moves.specs.Joined.{joined};

    ghost size = { λ m. A.size m.first };

    ghost moves = { λ m. joined (A.moves m.first) (B.moves m.second) };

    fn size(&self) -> usize {
        self.first.size()
    }

    fn count(&self) -> usize {
        self.first.count() + self.second.count()
    }

    fn carry(&self, place: usize, c: usize) -> (usize, Sign) {
        let count = self.first.count();
        if place < count {
            self.first.carry(place, c)
        } else {
            self.second.carry(place - count, c)
        }
    }

    fn row(&self, alloc: Global, place: usize) -> Result<Vec<Step>, NoMemory> {
        let count = self.first.count();
        if place < count {
            self.first.row(alloc, place)
        } else {
            self.second.row(alloc, place - count)
        }
    }
}
