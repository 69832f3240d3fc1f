//! The sign that a tensor takes under an operation.
ghost use Rattle.std.specs.Prelude.{◌≡◌};
ghost use Rattle.tensor_defs.specs.Number.{num_one};
ghost use Rattle.tensor_defs.specs.Operation.{determinant, value};
ghost use Rattle.tensor_defs.specs.Tensor.{axial_sign, sign, time_sign};
ghost use Rattle.sign_moves.specs.Signs.{signed};
ghost use Rattle.tensor_rank.specs.Flags.{marks_of};

use crate::flags::Flags;
use op_matrix::Op;
use sign_moves::times;
use tensor_defs::Sign;

/// The sign of the determinant.
fn determinant_sign(op: &Op) -> Sign
    ensures { determinant (value op.now) ≡ signed result num_one }
{
    // an operation stands at a place among all of them, so its determinant is 1 or -1
    let _place = op.place();
    if op.det() < 0 {
        Sign::Minus
    } else {
        Sign::Plus
    }
}

/// The sign that an axial tensor takes.
fn axial_sign(op: &Op, axial: bool) -> Sign
    ensures { axial_sign axial op.now ≡ signed result num_one }
{
    if axial {
        determinant_sign(op)
    } else {
        Sign::Plus
    }
}

/// The sign that a magnetic tensor takes.
fn time_sign(op: &Op, magnetic: bool) -> Sign
    ensures { time_sign magnetic op.now.primed ≡ signed result num_one }
{
    if magnetic && op.primed() {
        Sign::Minus
    } else {
        Sign::Plus
    }
}

/// The sign that a tensor with these marks takes under an operation: the determinant where it is axial, times -1
/// where it is magnetic and the operation is primed.
pub fn sign_of(op: &Op, flags: Flags) -> Sign
    ensures { sign (marks_of flags) op.now ≡ signed result num_one }
{
    times(axial_sign(op, flags.axial), time_sign(op, flags.magnetic))
}
