//! What an operation changes in a given tensor.
ghost use Rattle.std.specs.Prelude.{◌≡◌, length, IfOk, IfErr, MatchOption};
ghost use Rattle.tensor_rank.specs.Flags.{marks_of};
ghost use Rattle.tensor_action.specs.Acting.{ActGrows, tensor_of};
ghost use Rattle.given_tensors.specs.Carried.{AreCarried, even_marks};
ghost use Rattle.given_tensors.specs.Verdicts.{IsFirstChanged, IsLeftSame};
ghost use Rattle.given_tensors.specs.Lists.{AreSame, IsFirstApart};

use crate::carried::{Carried, list_place};
use crate::symmetry::signed;
use op_matrix::Op;
use root3_num::Root3;
use sign_moves::times;
use std::alloc::Global;
use tensor_action::ActFault;
use tensor_rank::{Comp, Flags, Rank, Sign, sign_of};

/// The first component at which a list of all components isn't the given one with a sign; none where it is.
fn first_apart<R: Rank>(carried: &[Root3], t: &[Root3], sign: Sign) -> Option<Comp<R>>
    requires carried { length carried.now ≡ R.LEN }
    requires given { length t.now ≡ R.LEN }
    ensures { MatchOption result (AreSame R.LEN sign carried.now t.now) (IsFirstApart R.LEN sign carried.now t.now) }
{
    for number in 0..R::LEN {
        if !carried[number].same(&signed(sign, &t[number])) {
            return Some(Comp::at(number));
        }
    }
    None
}

/// The marks under which the inversion and time reversal leave each tensor of a rank the same.
#[tactic(auto, unfolding(crate::specs::Carried::even_marks))]
fn even_flags<R: Rank>() -> Flags
    ensures { marks_of result ≡ even_marks R.R }
{
    Flags {
        axial: R::R % 2 == 1,
        magnetic: false,
    }
}

/// The first component in index order that the operation changes; none where it leaves the tensor the same. The lists to
/// which operations carried it before serve again; they are held without the signs of the marks, so that each serves for
/// the operations with the same matrix up to the sign. `TooLarge` as the action gives it.
pub(crate) fn first_changed<R: Rank>(
    alloc: Global,
    op: &Op,
    flags: Flags,
    t: &[Root3],
    carried: &mut Vec<Carried>,
) -> Result<Option<Comp<R>>, ActFault>
    requires size { length t.now ≡ R.LEN }
    requires carried { AreCarried (even_marks R.R) R.R R.LEN t.now carried.old.items }
    ensures ok { IfOk result (λ o. MatchOption o (IsLeftSame (marks_of flags) R.R (tensor_of t.now) op.now) (IsFirstChanged (marks_of flags) R.R R.LEN (tensor_of t.now) op.now)) }
    ensures calm { IfOk result (λ _. ActGrows (marks_of flags) op.now R.R (tensor_of t.now) → ⊥) }
    ensures grows { IfErr result (λ e. e ≡ ActFault.TooLarge → ActGrows (marks_of flags) op.now R.R (tensor_of t.now)) }
    ensures carried { IfOk result (λ _. AreCarried (even_marks R.R) R.R R.LEN t.now carried.new.items) }
{
    let even = even_flags::<R>();
    let held = sign_of(op, even);
    let own = sign_of(op, flags);
    let sign = times(held, own);
    match list_place::<R>(alloc, op, even, t, carried) {
        Ok(place) => Ok(first_apart(&carried[place].list, t, sign)),
        Err(fault) => Err(fault),
    }
}
