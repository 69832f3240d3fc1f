//! Whether two states are told apart.
ghost use Rattle.std.specs.Prelude.{◌≡◌, ◌≤◌, ◌↔◌, ℕ, IsTrue, length};
ghost use Rattle.tensor_defs.specs.Jahn.{JahnSymbol};
ghost use Rattle.magnetic_groups.specs.Sets.{In};
ghost use Rattle.species.specs.Species.{AreToldApart};
ghost use Rattle.species.specs.Told.{AreCarried};

use coset_states::States;

/// Whether two states are told apart: whether the state that the second is, seen from the first, is carried.
pub(crate) fn are_apart(states: &States, carried: &[bool], k: usize, l: usize) -> bool
    requires first_from { 1 ≤ k }
    requires first_to { k ≤ length states.now.reps }
    requires second_from { 1 ≤ l }
    requires second_to { l ≤ length states.now.reps }
    requires sized { length carried.now ≡ length states.now.reps }
    ensures { (j : JahnSymbol) → AreCarried j (In states.now.sub) states.now.reps carried.now → IsTrue result ↔ AreToldApart j (In states.now.sub) states.now.reps k l }
{
    // what the count tells of the groups is for the proof
    let _count = states.count();
    let back = states.representative(k).inverse();
    let between = back.product(&states.representative(l));
    match states.state_of(&between) {
        Some(seen) => carried[seen - 1],
        None => false,
    }
}
