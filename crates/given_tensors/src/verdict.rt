//! Whether a group leaves a given tensor unchanged.
ghost use Rattle.std.specs.Prelude.{◌≡◌, length, IfOk, IfErr};
ghost use Rattle.tensor_defs.specs.Jahn.{JahnSymbol, IsInvariant};
ghost use Rattle.magnetic_groups.specs.Sets.{In};
ghost use Rattle.tensor_rank.specs.Shapes.{IsShapeOf};
ghost use Rattle.tensor_action.specs.Acting.{tensor_of};
ghost use Rattle.given_tensors.specs.Verdicts.{CheckGrows, TellsVerdict};

use crate::changes::first_changed;
use crate::symmetry::first_broken;
use magnetic_groups::Group;
use root3_num::Root3;
use std::alloc::Global;
use tensor_action::ActFault;
use tensor_rank::{Comp, Rank, Shape};

/// What is told of a tensor under a group.
#[derive(Clone, Copy)]
pub enum Verdict<R: Rank> {
    /// The tensor has the index symmetry, and each element leaves it the same.
    Invariant,
    /// The first component in index order at which the tensor isn't the sign times its representative, or isn't 0
    /// although each tensor with the index symmetry is 0 there.
    Symmetry { c: Comp<R> },
    /// The place, counted from 1, of the first element that doesn't leave the tensor the same, and the first
    /// component in index order that it changes.
    Element { place: usize, c: Comp<R> },
}

/// Whether a group leaves a tensor, given by all components in index order, unchanged; else the first fact that refutes
/// it: the index symmetry, then the elements in their order. `TooLarge` exactly where the tensor has the index symmetry
/// and the action of an element on it is too large, all elements before leaving it the same; `NoMemory` where memory
/// is refused. Source: International Tables for Crystallography D 1.1.
pub fn check<R: Rank>(
    alloc: Global,
    group: &Group,
    shape: &Shape<R>,
    t: &[Root3],
) -> Result<Verdict<R>, ActFault>
    requires { length t.now ≡ R.LEN }
    ensures verdict { IfOk result (λ v. (j : JahnSymbol) → IsShapeOf j R.R shape.now → TellsVerdict j group.now R.R R.LEN (tensor_of t.now) v) }
    ensures exact { IfOk result (λ v. (j : JahnSymbol) → IsShapeOf j R.R shape.now → IsInvariant j (In group.now) (tensor_of t.now) → v ≡ Verdict.Invariant) }
    ensures calm { IfOk result (λ _. (j : JahnSymbol) → IsShapeOf j R.R shape.now → CheckGrows j group.now R.R (tensor_of t.now) → ⊥) }
    ensures grows { IfErr result (λ e. e ≡ ActFault.TooLarge → (j : JahnSymbol) → IsShapeOf j R.R shape.now → CheckGrows j group.now R.R (tensor_of t.now)) }
{
    let broken = first_broken(alloc, shape, t)?;
    if let Some(c) = broken {
        return Ok(Verdict::Symmetry { c });
    }
    let flags = shape.flags();
    let mut carried = Vec::new(alloc);
    for place in 0..group.len() {
        match first_changed(alloc, &group.at(place), flags, t, &mut carried) {
            Ok(None) => {}
            Ok(Some(c)) => {
                return Ok(Verdict::Element {
                    place: place + 1,
                    c,
                });
            }
            Err(fault) => return Err(fault),
        }
    }
    Ok(Verdict::Invariant)
}
