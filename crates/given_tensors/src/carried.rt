//! Lists to which operations carried one tensor: each serves once more for the operations that act like its own.
ghost use Rattle.std.specs.Prelude.{◌≡◌, length, IfErr, IfOk, IfSome};
ghost use Rattle.tensor_rank.specs.Flags.{marks_of};
ghost use Rattle.tensor_action.specs.Acting.{ActGrows, tensor_of};
ghost use Rattle.given_tensors.specs.Carried.{AreCarried, IsListAt, Serves};

use op_matrix::Op;
use root3_num::Root3;
use state_marks::act_alike;
use std::alloc::Global;
use tensor_action::{ActFault, act};
use tensor_rank::{Flags, Rank};

/// An operation, and the list to which it carried the tensor.
#[derive(Drop)]
pub(crate) struct Carried {
    op: Op,
    pub list: Vec<Root3>,
}

/// The place of a list to which an operation that acts alike carried the tensor, if there is one.
fn place_alike<R: Rank>(carried: &[Carried], op: &Op, flags: Flags) -> Option<usize>
    ensures { IfSome result (Serves (marks_of flags) op.now R.R R.LEN carried.now) }
{
    for place in 0..carried.len() {
        let earlier = &carried[place];
        if act_alike::<R>(flags, &earlier.op, op) {
            return Some(place);
        }
    }
    None
}

/// The place of the list to which an operation carries the tensor, appended where none that is held serves. `TooLarge`
/// as the action gives it.
pub(crate) fn list_place<R: Rank>(
    alloc: Global,
    op: &Op,
    flags: Flags,
    t: &[Root3],
    carried: &mut Vec<Carried>,
) -> Result<usize, ActFault>
    requires size { length t.now ≡ R.LEN }
    requires carried { AreCarried (marks_of flags) R.R R.LEN t.now carried.old.items }
    ensures ok { IfOk result (IsListAt (marks_of flags) op.now R.R R.LEN t.now carried.new.items) }
    ensures carried { IfOk result (λ _. AreCarried (marks_of flags) R.R R.LEN t.now carried.new.items) }
    ensures grows { IfErr result (λ e. e ≡ ActFault.TooLarge → ActGrows (marks_of flags) op.now R.R (tensor_of t.now)) }
{
    if let Some(place) = place_alike::<R>(carried.as_slice(), op, flags) {
        return Ok(place);
    }
    let list = act::<R>(alloc, op, flags, t)?;
    carried.push(Carried { op: *op, list })?;
    Ok(carried.len() - 1)
}
