//! The group of the operations that leave a given tensor unchanged.
ghost use Rattle.std.specs.Prelude.{◌≡◌, length, IfOk, IfErr};
ghost use Rattle.tensor_defs.specs.Lists.{IsListing};
ghost use Rattle.tensor_defs.specs.OperationOrder.{comes_before};
ghost use Rattle.magnetic_groups.specs.Sets.{FitsFrame};
ghost use Rattle.tensor_rank.specs.Flags.{marks_of};
ghost use Rattle.tensor_action.specs.Acting.{ActGrows, tensor_of};
ghost use Rattle.given_tensors.specs.Carried.{AreCarried, even_marks};
ghost use Rattle.given_tensors.specs.Stabilisers.{Stabilises, StabiliserGrows};
ghost use Rattle.given_tensors.specs.Grown.{IsGrown, IsStep, SomeGrows, StaysSame};

use crate::carried::Carried;
use crate::changes::first_changed;
use crate::wholes::{Whole, whole_group};
use magnetic_groups::{Group, NoMemory};
use op_matrix::Op;
use root3_num::Root3;
use std::alloc::Global;
use tensor_action::ActFault;
use tensor_rank::{Flags, Rank};

/// The group with one more element.
fn grown(alloc: Global, kept: Group, op: &Op) -> Result<Group, NoMemory>
    requires { FitsFrame kept op.now }
    ensures { IfOk result (IsGrown kept op.now) }
{
    if kept.has(op) {
        return Ok(kept);
    }
    kept.joined(alloc, op)
}

/// The group, with the operation as one more element where it leaves the tensor the same.
fn with_left<R: Rank>(
    alloc: Global,
    kept: Group,
    op: &Op,
    flags: Flags,
    t: &[Root3],
    carried: &mut Vec<Carried>,
) -> Result<Group, ActFault>
    requires size { length t.now ≡ R.LEN }
    requires frame { FitsFrame kept op.now }
    requires carried { AreCarried (even_marks R.R) R.R R.LEN t.now carried.old.items }
    ensures carried { IfOk result (λ _. AreCarried (even_marks R.R) R.R R.LEN t.now carried.new.items) }
    ensures step { IfOk result (IsStep (marks_of flags) R.R (tensor_of t.now) kept op.now) }
    ensures calm { IfOk result (λ _. ActGrows (marks_of flags) op.now R.R (tensor_of t.now) → ⊥) }
    ensures grows { IfErr result (λ e. e ≡ ActFault.TooLarge → ActGrows (marks_of flags) op.now R.R (tensor_of t.now)) }
{
    match first_changed::<R>(alloc, op, flags, t, carried) {
        Ok(None) => match grown(alloc, kept, op) {
            Ok(group) => Ok(group),
            Err(_) => Err(ActFault::NoMemory),
        },
        Ok(Some(_component)) => Ok(kept),
        Err(fault) => Err(fault),
    }
}

/// The group of those elements of a group that leave a tensor the same.
fn elements_left<R: Rank>(
    alloc: Global,
    all: &Group,
    flags: Flags,
    t: &[Root3],
) -> Result<Group, ActFault>
    requires { length t.now ≡ R.LEN }
    ensures group { IfOk result (λ g. IsListing comes_before (StaysSame (marks_of flags) R.R (tensor_of t.now) all.now) g) }
    ensures calm { IfOk result (λ _. SomeGrows (marks_of flags) R.R (tensor_of t.now) all.now → ⊥) }
    ensures grows { IfErr result (λ e. e ≡ ActFault.TooLarge → SomeGrows (marks_of flags) R.R (tensor_of t.now) all.now) }
{
    let mut kept = match Group::trivial(alloc) {
        Ok(group) => group,
        Err(_) => return Err(ActFault::NoMemory),
    };
    let mut carried = Vec::new(alloc);
    for place in 0..all.len() {
        kept = match with_left::<R>(alloc, kept, &all.at(place), flags, t, &mut carried) {
            Ok(group) => group,
            Err(fault) => return Err(fault),
        };
    }
    // what the length tells of the group is for the proof
    let _size = kept.len();
    Ok(kept)
}

/// The group of those elements of a whole group that leave a tensor with these marks, given by all components in index
/// order, the same. `TooLarge` exactly where the action of some element of the whole group on it is; `NoMemory` where
/// memory is refused.
pub fn stabiliser<R: Rank>(
    alloc: Global,
    whole: Whole,
    flags: Flags,
    t: &[Root3],
) -> Result<Group, ActFault>
    requires { length t.now ≡ R.LEN }
    ensures group { IfOk result (λ g. IsListing comes_before (Stabilises whole (marks_of flags) R.R (tensor_of t.now)) g) }
    ensures calm { IfOk result (λ _. StabiliserGrows whole (marks_of flags) R.R (tensor_of t.now) → ⊥) }
    ensures grows { IfErr result (λ e. e ≡ ActFault.TooLarge → StabiliserGrows whole (marks_of flags) R.R (tensor_of t.now)) }
{
    match whole_group(alloc, whole) {
        Ok(all) => elements_left::<R>(alloc, &all, flags, t),
        Err(_) => Err(ActFault::NoMemory),
    }
}
