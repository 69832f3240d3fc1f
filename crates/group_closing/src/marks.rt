//! Marks of operations.
ghost use Rattle.std.specs.Prelude.{◌≡◌, ◌+◌, ◌*◌, ◌<◌, ◌↔◌, ◌⊎◌, ℕ, IsTrue, replicate, set, true, false, length};
ghost use Rattle.std.specs.Int.{bit_at};
ghost use Rattle.tensor_defs.specs.Frames.{IsPlain};
ghost use Rattle.op_matrix.specs.Table.{nth_operation, place};
ghost use Rattle.group_closing.specs.Marks.{AreWithin, mark_at, unmarked};

use op_matrix::Op;
use std::marker::Model;

/// A binary digit for each of the 64 matrices that is plain.
const PLAIN: u64 = 0xff00_ffff_ffff_00ff;

/// Which of the 128 operations are marked: a binary digit for each of the 64 matrices, the least significant one for
/// the identity, where the matrix is marked unprimed, and another where it is marked primed.
#[derive(Drop)]
pub struct Marks {
    unprimed: u64,
    primed: u64,
}

impl Model for Marks {
    ghost use Rattle.std.specs.Prelude.{List, Bool};
    ghost use Rattle.group_closing.specs.Marks.{marks_of};

    ghost Value = { List Bool };

    ghost view = { λ s. marks_of s.unprimed s.primed };
}

impl Marks {
    /// No marks.
    pub fn none() -> Marks
        ensures { result ≡ replicate 128 false }
    {
        Marks {
            unprimed: 0,
            primed: 0,
        }
    }

    /// Marks of the plain operations, unprimed and primed.
    pub fn plain() -> Marks
        ensures { (k : ℕ) → k < 128 → (mark_at result k ≡ true) ↔ IsPlain (nth_operation k) }
    {
        Marks {
            unprimed: PLAIN,
            primed: PLAIN,
        }
    }

    /// The same marks once more.
    pub fn copied(&self) -> Marks
        ensures { result ≡ self.now }
    {
        Marks {
            unprimed: self.unprimed,
            primed: self.primed,
        }
    }

    /// Whether the operation is marked.
    pub fn has(&self, op: &Op) -> bool
        ensures is { result ≡ mark_at self.now (place op.now) }
        ensures below { place op.now < 128 }
        ensures at { op.now ≡ nth_operation (place op.now) }
    {
        let place = op.place();
        let digits = if place % 2 == 1 {
            self.primed
        } else {
            self.unprimed
        };
        (digits >> (place / 2)) & 1 == 1
    }

    /// Marks the operation.
    pub fn mark(&mut self, op: &Op)
        ensures { self.new ≡ set self.old (place op.now) true }
    {
        let place = op.place();
        let digit = 1 << (place / 2);
        if place % 2 == 1 {
            self.primed |= digit;
        } else {
            self.unprimed |= digit;
        }
    }

    /// How many operations are marked.
    pub fn count(&self) -> usize
        ensures is { result + unmarked self.now ≡ 128 }
        ensures sized { length self.now ≡ 128 }
    {
        (self.unprimed.count_ones() + self.primed.count_ones()) as usize
    }

    /// Whether each operation that is marked is marked in the others too.
    pub fn is_within(&self, others: &Marks) -> bool
        ensures { IsTrue result ↔ AreWithin self.now others.now }
    {
        self.unprimed & !others.unprimed == 0 && self.primed & !others.primed == 0
    }

    /// The matrices that are marked, unprimed or primed: a binary digit for each.
    pub fn matrices(&self) -> u64
        ensures { (c : ℕ) → c < 64 → (bit_at result c ≡ 1) ↔ ((mark_at self.now (2 * c) ≡ true) ⊎ (mark_at self.now (2 * c + 1) ≡ true)) }
    {
        self.unprimed | self.primed
    }
}
