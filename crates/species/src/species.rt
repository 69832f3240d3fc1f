//! The ferroic species of a group and its subgroup by a property.
ghost use Rattle.std.specs.Prelude.{◌≡◌, IfErr, IfOk};
ghost use Rattle.tensor_defs.specs.Frames.{AllOf, IsFramed, IsPlain};
ghost use Rattle.tensor_defs.specs.Jahn.{JahnSymbol};
ghost use Rattle.magnetic_groups.specs.Sets.{In};
ghost use Rattle.tensor_rank.specs.AnyShapes.{IsAnyShapeOf};
ghost use Rattle.tensor_rank.specs.Shapes.{IsShapeOf};
ghost use Rattle.state_marks.specs.Told.{MarksGrow};
ghost use Rattle.species.specs.Species.{AreLeaders, IsKind, property_symbol};

use crate::carried::carried_states;
use crate::kinds::{Kind, kind_of};
use crate::leaders::{Leaders, leaders_of};
use crate::properties::{Property, symbol_tree};
use coset_states::States;
use state_marks::DifferFault;
use std::alloc::Global;
use tensor_rank::{AnyShape, Rank, Shape, at_rank, compile};

/// Which states a property tells apart.
#[derive(Drop)]
pub struct Species {
    /// Whether it tells all states apart, some, or none.
    pub kind: Kind,
    /// For each state, in order, the least state that isn't told apart from it.
    pub classes: Leaders,
}

/// The species for a symbol whose shape is known.
fn species_at<R: Rank>(
    alloc: Global,
    states: &States,
    shape: &Shape<R>,
) -> Result<Species, DifferFault>
    requires { IsFramed (In states.now.sub) }
    ensures kind { IfOk result (λ s. (j : JahnSymbol) → IsShapeOf j R.R shape.now → IsKind j (In states.now.sub) states.now.reps s.kind) }
    ensures classes { IfOk result (λ s. (j : JahnSymbol) → IsShapeOf j R.R shape.now → AreLeaders j (In states.now.sub) states.now.reps s.classes) }
    ensures calm { IfOk result (λ _. (j : JahnSymbol) → IsShapeOf j R.R shape.now → MarksGrow j (In states.now.whole) (In states.now.sub) → ⊥) }
    ensures grows { IfErr result (λ e. e ≡ DifferFault.TooLarge → (j : JahnSymbol) → IsShapeOf j R.R shape.now → MarksGrow j (In states.now.whole) (In states.now.sub)) }
    ensures plain { IfErr result (λ e. e ≡ DifferFault.TooLarge → ¬ AllOf (In states.now.sub) IsPlain) }
{
    // what the count tells of the groups is for the proof
    let _count = states.count();
    let carried = carried_states(alloc, states, shape)?;
    let classes = leaders_of(alloc, states, &carried)?;
    let kind = kind_of(&classes);
    Ok(Species { kind, classes })
}

/// The species for a symbol whose shape is known, whatever its rank.
fn species_in(alloc: Global, states: &States, shape: AnyShape) -> Result<Species, DifferFault>
    requires { IsFramed (In states.now.sub) }
    ensures kind { IfOk result (λ s. (j : JahnSymbol) → IsAnyShapeOf j shape → IsKind j (In states.now.sub) states.now.reps s.kind) }
    ensures classes { IfOk result (λ s. (j : JahnSymbol) → IsAnyShapeOf j shape → AreLeaders j (In states.now.sub) states.now.reps s.classes) }
    ensures calm { IfOk result (λ _. (j : JahnSymbol) → IsAnyShapeOf j shape → MarksGrow j (In states.now.whole) (In states.now.sub) → ⊥) }
    ensures grows { IfErr result (λ e. e ≡ DifferFault.TooLarge → (j : JahnSymbol) → IsAnyShapeOf j shape → MarksGrow j (In states.now.whole) (In states.now.sub)) }
    ensures plain { IfErr result (λ e. e ≡ DifferFault.TooLarge → ¬ AllOf (In states.now.sub) IsPlain) }
{
    at_rank!(shape, s => species_at(alloc, states, &s))
}

/// Which states of a group under its subgroup a property tells apart, and the kind of the species. `TooLarge` exactly
/// where the components of the property's tensor that distinguish the states grow too large, so never where the
/// operations of the first state are signed permutations; `NoMemory` where memory is refused.
pub fn species_of(
    alloc: Global,
    states: &States,
    property: Property,
) -> Result<Species, DifferFault>
    requires { IsFramed (In states.now.sub) }
    ensures kind { IfOk result (λ s. IsKind (property_symbol property) (In states.now.sub) states.now.reps s.kind) }
    ensures classes { IfOk result (λ s. AreLeaders (property_symbol property) (In states.now.sub) states.now.reps s.classes) }
    ensures calm { IfOk result (λ _. MarksGrow (property_symbol property) (In states.now.whole) (In states.now.sub) → ⊥) }
    ensures grows { IfErr result (λ e. e ≡ DifferFault.TooLarge → MarksGrow (property_symbol property) (In states.now.whole) (In states.now.sub)) }
    ensures plain { IfErr result (λ e. e ≡ DifferFault.TooLarge → ¬ AllOf (In states.now.sub) IsPlain) }
{
    let jahn = match symbol_tree(alloc, property) {
        Ok(jahn) => jahn,
        Err(_) => return Err(DifferFault::NoMemory),
    };
    match compile(alloc, &jahn) {
        Ok(shape) => species_in(alloc, states, shape),
        Err(_) => Err(DifferFault::NoMemory),
    }
}
