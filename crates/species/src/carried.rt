//! The states whose elements carry some invariant tensor to another one.
ghost use Rattle.std.specs.Prelude.{◌≡◌, ◌≤◌, ◌+◌, ◌↔◌, IfErr, IfOk, IsTrue, length};
ghost use Rattle.tensor_defs.specs.Frames.{AllOf, IsFramed, IsPlain};
ghost use Rattle.tensor_defs.specs.Jahn.{JahnSymbol};
ghost use Rattle.magnetic_groups.specs.Sets.{In};
ghost use Rattle.tensor_rank.specs.Shapes.{IsShapeOf};
ghost use Rattle.state_marks.specs.Told.{MarksGrow, state_at};
ghost use Rattle.species.specs.Told.{AreCarried, AreMarked, HasMark};

use coset_states::States;
use state_marks::{DifferFault, Marks, differ};
use std::alloc::{AllocError, Global};
use tensor_rank::{Comp, Rank, Shape};

/// Whether some component is marked in a state, counted from 1.
fn has_mark<R: Rank>(marks: &Marks<R>, k: usize) -> bool
    requires from_two { 2 ≤ k }
    requires to_count { k ≤ length marks.now.states + 1 }
    ensures { IsTrue result ↔ HasMark R.LEN (state_at marks.now k) }
{
    for number in 0..R::LEN {
        if marks.is_marked(k, Comp::at(number)) {
            return true;
        }
    }
    false
}

/// For each state whether some component is marked in it; in the first none is.
fn marked_states<R: Rank>(
    alloc: Global,
    states: &States,
    marks: &Marks<R>,
) -> Result<Vec<bool>, AllocError>
    requires { length marks.now.states + 1 ≡ length states.now.reps }
    ensures { IfOk result (λ v. AreMarked R.LEN marks.now (length states.now.reps) v.items) }
{
    let mut flags = Vec::with_capacity(alloc, states.count())?;
    flags.push(false)?;
    for place in 1..states.count() {
        flags.push(has_mark(marks, place + 1))?;
    }
    Ok(flags)
}

/// For each state whether its elements carry some invariant tensor to another one. `TooLarge` exactly where the
/// components that distinguish the states grow too large.
pub(crate) fn carried_states<R: Rank>(
    alloc: Global,
    states: &States,
    shape: &Shape<R>,
) -> Result<Vec<bool>, DifferFault>
    requires { IsFramed (In states.now.sub) }
    ensures sized { IfOk result (λ v. length v.items ≡ length states.now.reps) }
    ensures carried { IfOk result (λ v. (j : JahnSymbol) → IsShapeOf j R.R shape.now → AreCarried j (In states.now.sub) states.now.reps v.items) }
    ensures calm { IfOk result (λ _. (j : JahnSymbol) → IsShapeOf j R.R shape.now → MarksGrow j (In states.now.whole) (In states.now.sub) → ⊥) }
    ensures grows { IfErr result (λ e. e ≡ DifferFault.TooLarge → (j : JahnSymbol) → IsShapeOf j R.R shape.now → MarksGrow j (In states.now.whole) (In states.now.sub)) }
    ensures plain { IfErr result (λ e. e ≡ DifferFault.TooLarge → ¬ AllOf (In states.now.sub) IsPlain) }
{
    // what the count tells of the groups is for the proof
    let _count = states.count();
    let marks = differ(alloc, states, shape)?;
    let flags = marked_states(alloc, states, &marks)?;
    Ok(flags)
}
