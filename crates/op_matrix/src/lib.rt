//! Operations of magnetic point groups: 3×3 matrices with a mark of time reversal, each matrix a signed permutation
//! matrix (plain) or one of the 24 of 6/mmm on the hexagonal axes (hexagonal). Source: International Tables for
//! Crystallography D 1.1.
#![tactic(auto)]

ghost use Rattle.std.specs.Prelude.{◌≡◌, ◌<◌, ◌↔◌, IsTrue};
ghost use Rattle.tensor_defs.specs.Operation.{Operation, IsProduct, identity, reversal, entry, determinant, value};
ghost use Rattle.tensor_defs.specs.Frames.{HaveCommonFrame, IsDiagonal, IsHexagonal, IsPlain};
ghost use Rattle.tensor_defs.specs.OperationOrder.{comes_before};
ghost use Rattle.op_matrix.specs.Table.{nth_operation, place};
ghost use Rattle.tensor_defs.specs.Number.{whole};
ghost use Rattle.tensor_defs.specs.Symbols.{operation_of};
ghost use Rattle.op_matrix.specs.Laws.{OrderIsStrict, AreListed, FramesAreClosed};
ghost use Rattle.op_matrix.specs.View.{entry_of, axis};

mod entry;
mod tables;
#[cfg(test)]
mod tests;

pub use entry::Entry;
use std::marker::Model;
use tables::{entry_at, frame_at, inverse_at, is_negative_at, product_at};
pub use tensor_defs::{Direction, OpKind};

/// A matrix, by its place in the table of all plain and hexagonal ones, and a mark.
#[derive(Clone, Copy, Debug)]
pub struct Op {
    matrix: u8,
    primed: bool,
}

impl Model for Op {
    ghost use Rattle.std.specs.Prelude.{◌≡◌, ◌<◌, IsTrue};
    ghost use Rattle.tensor_defs.specs.Operation.{Operation};
    ghost use Rattle.op_matrix.specs.Table.{matrix_place, operation_at};
    ghost use Rattle.op_matrix.specs.Places.{matrix_place_at};

    ghost Value = { Operation };

    ghost view = { λ s. operation_at s.matrix s.primed };

    ghost invariant = { λ s. s.matrix < 64 };

    ghost inverse = { λ g. record { matrix = matrix_place g; primed = g.primed } };

    ghost inverse_ok = { λ a h. matrix_place_at a.matrix a.primed h };
}

impl Op {
    /// The identity.
    pub fn identity() -> Op
        ensures { result ≡ identity }
    {
        Op {
            matrix: 0,
            primed: false,
        }
    }

    /// The identity with time reversal.
    pub fn reversal() -> Op
        ensures { result ≡ reversal }
    {
        Op {
            matrix: 0,
            primed: true,
        }
    }

    /// Whether time reversal is joined to it.
    pub fn primed(&self) -> bool
        ensures { result ≡ self.now.primed }
    {
        self.primed
    }

    /// The place among all 128 operations in their order.
    pub fn place(&self) -> usize
        ensures is { result ≡ place self.now }
        ensures below { result < 128 }
        ensures at { self.now ≡ nth_operation result }
    {
        2 * self.matrix as usize + self.primed as usize
    }

    /// The operation at a place in the order of all 128.
    #[tactic(auto, unfolding(crate::specs::Table::nth_operation))]
    pub fn at_place(place: usize) -> Op
        requires { place < 128 }
        ensures { result ≡ nth_operation place }
    {
        Op {
            matrix: (place / 2) as u8,
            primed: place % 2 == 1,
        }
    }

    /// The entry at a row and a column, both counted from 0.
    pub fn entry(&self, row: usize, col: usize) -> Entry
        requires row { row < 3 }
        requires col { col < 3 }
        ensures { entry_of result ≡ entry self.now (axis row) (axis col) }
    {
        entry_at(self.matrix, 3 * row + col)
    }

    /// Whether the matrix is a signed permutation matrix.
    pub fn is_plain(&self) -> bool
        ensures { IsTrue result ↔ IsPlain self.now }
    {
        frame_at(self.matrix).is_plain()
    }

    /// Whether the matrix is one of the 24 of 6/mmm.
    pub fn is_hex(&self) -> bool
        ensures { IsTrue result ↔ IsHexagonal self.now }
    {
        frame_at(self.matrix).is_hex()
    }

    /// Whether the matrix is diagonal.
    pub fn is_diagonal(&self) -> bool
        ensures { IsTrue result ↔ IsDiagonal self.now }
    {
        frame_at(self.matrix).is_both()
    }

    /// The determinant.
    pub fn det(&self) -> i8
        ensures { determinant (value self.now) ≡ whole result }
    {
        if is_negative_at(self.matrix) { -1 } else { 1 }
    }

    /// This operation times the other.
    pub fn product(&self, other: &Op) -> Op
        requires { HaveCommonFrame self.now other.now }
        ensures is { IsProduct self.now other.now result }
        ensures plain { IsPlain self.now → IsPlain other.now → IsPlain result }
        ensures hexagonal { IsHexagonal self.now → IsHexagonal other.now → IsHexagonal result }
    {
        Op {
            matrix: product_at(self.matrix, other.matrix),
            primed: self.primed != other.primed,
        }
    }

    /// The operation whose product with this one is the identity.
    pub fn inverse(&self) -> Op
        ensures after { IsProduct self.now result identity }
        ensures ahead { IsProduct result self.now identity }
        ensures plain { IsPlain self.now → IsPlain result }
        ensures hexagonal { IsHexagonal self.now → IsHexagonal result }
    {
        Op {
            matrix: inverse_at(self.matrix),
            primed: self.primed,
        }
    }

    /// Whether it comes before the other in the order of operations.
    pub fn before(&self, other: &Op) -> bool
        ensures { result ≡ comes_before self.now other.now }
    {
        self.place() < other.place()
    }
}

impl PartialEq for Op {
    ghost use Rattle.std.specs.Prelude.{◌==◌};
    ghost use Rattle.std.specs.Ordering.{on};
    ghost use Rattle.std.specs.Cmp.Rules.{comparing};
    ghost use Rattle.std.proofs.Common.{rules};
    ghost use Rattle.op_matrix.specs.Table.{place};

    ghost eq = { on place ◌==◌ };

    ghost laws = { Prim.search (comparing, rules) };

    fn eq(&self, other: &Op) -> bool {
        self.place() == other.place()
    }
}

impl Eq for Op {
    ghost use Rattle.std.specs.Cmp.Rules.{comparing};
    ghost use Rattle.std.proofs.Common.{rules};

    ghost laws = { Prim.search (comparing, rules) };
}

/// The order of operations is a strict total order, and the identity comes before all others.
pub fn order_is_strict()
    ensures { OrderIsStrict }
{}

/// The plain and the hexagonal operations are those at the places below 128, each at one place.
pub fn operations_are_listed()
    ensures { AreListed }
{}

/// Two plain operations have a product, and it is plain; two hexagonal ones likewise.
pub fn frames_are_closed()
    ensures { FramesAreClosed }
{}

/// The operation of a kind about a direction; none for a pair with no position.
#[tactic(auto, unfolding(crate::specs::Table::operation_at))]
pub fn generator(kind: OpKind, direction: Direction, primed: bool) -> Option<Op>
    ensures { result ≡ operation_of kind direction primed }
{
    match (kind, direction) {
        (OpKind::Two, Direction::X) => Some(Op { matrix: 7, primed }),
        (OpKind::Two, Direction::Y) => Some(Op { matrix: 57, primed }),
        (OpKind::Two, Direction::Z) => Some(Op { matrix: 62, primed }),
        (OpKind::Two, Direction::XY) => Some(Op { matrix: 17, primed }),
        (OpKind::Two, Direction::XmY) => Some(Op { matrix: 47, primed }),
        (OpKind::Mirror, Direction::X) => Some(Op { matrix: 56, primed }),
        (OpKind::Mirror, Direction::Y) => Some(Op { matrix: 6, primed }),
        (OpKind::Mirror, Direction::Z) => Some(Op { matrix: 1, primed }),
        (OpKind::Mirror, Direction::XY) => Some(Op { matrix: 46, primed }),
        (OpKind::Mirror, Direction::XmY) => Some(Op { matrix: 16, primed }),
        (OpKind::Four, Direction::Z) => Some(Op { matrix: 40, primed }),
        (OpKind::Bar4, Direction::Z) => Some(Op { matrix: 23, primed }),
        (OpKind::Three, Direction::Z) => Some(Op { matrix: 52, primed }),
        (OpKind::Bar3, Direction::Z) => Some(Op { matrix: 11, primed }),
        (OpKind::Six, Direction::Z) => Some(Op { matrix: 12, primed }),
        (OpKind::Bar6, Direction::Z) => Some(Op { matrix: 51, primed }),
        (OpKind::Three, Direction::XYZ) => Some(Op { matrix: 24, primed }),
        (OpKind::Bar3, Direction::XYZ) => Some(Op { matrix: 39, primed }),
        (OpKind::Bar1, Direction::Z) => Some(Op { matrix: 63, primed }),
        _ => None,
    }
}
