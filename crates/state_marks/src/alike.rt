//! Operations that act the same on all tensors of a rank.
ghost use Rattle.std.specs.Prelude.{◌≡◌, IfSome, IsTrue};
ghost use Rattle.tensor_defs.specs.Operation.{Axis, value};
ghost use Rattle.sign_moves.specs.Signs.{signed};
ghost use Rattle.tensor_rank.specs.Flags.{marks_of};
ghost use Rattle.state_marks.specs.Alike.{AreAlike, sign_power};

use op_matrix::Op;
use sign_moves::times;
use tensor_rank::{Flags, Rank, Sign, sign_of};

/// The sign with which the matrix of one operation is that of another, if there is one: in the order of operations the
/// matrix at a place from the start is the negative of that at the place from the end.
fn sign_between(g: &Op, h: &Op) -> Option<Sign>
    ensures { IfSome result (λ s. (i j : Axis) → value h.now i j ≡ signed s (value g.now i j)) }
{
    let first = g.place() / 2;
    let second = h.place() / 2;
    if first == second {
        return Some(Sign::Plus);
    }
    if first + second == 63 {
        return Some(Sign::Minus);
    }
    None
}

/// The product of as many signs as a tensor has indices.
fn power<R: Rank>(sign: Sign) -> Sign
    ensures { result ≡ sign_power sign R.R }
{
    let mut product = Sign::Plus;
    for _place in 0..R::R {
        product = times(sign, product);
    }
    product
}

/// Whether two operations carry each tensor of a rank with these marks to the same one, since their matrices are the
/// same but for the sign, and all signs together are +.
pub fn act_alike<R: Rank>(flags: Flags, g: &Op, h: &Op) -> bool
    ensures { IsTrue result → AreAlike (marks_of flags) R.R g.now h.now }
{
    match sign_between(g, h) {
        Some(sign) => {
            let carried = times(sign_of(h, flags), power::<R>(sign));
            match times(sign_of(g, flags), carried) {
                Sign::Plus => true,
                Sign::Minus => false,
            }
        }
        None => false,
    }
}
