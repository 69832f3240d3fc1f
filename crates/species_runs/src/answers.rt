//! The answer to two groups.
ghost use Rattle.std.specs.Prelude.{◌≡◌, ◌++◌, ℕ, List, IfErr, IfOk, OnOk};
ghost use Rattle.tensor_defs.specs.Frames.{IsFramed};
ghost use Rattle.tensor_defs.specs.Group.{InGroup};
ghost use Rattle.tensor_defs.specs.Lists.{IsListing};
ghost use Rattle.tensor_defs.specs.OperationOrder.{comes_before};
ghost use Rattle.magnetic_groups.specs.Sets.{In};
ghost use Rattle.state_marks.specs.Told.{MarksGrow};
ghost use Rattle.species.specs.Species.{property_symbol};
ghost use Rattle.species_runs.specs.SpeciesTexts.{IsPropertyLine, IsSpeciesOver, SomeGrows};
ghost use Rattle.species_runs.specs.Stops.{IsPairAnswered, IsPairStop};

use crate::lines::{write_header, write_property};
use coset_states::{StateFault, States, list_states};
use group_symbol::SymbolTree;
use magnetic_groups::Group;
use species::{DifferFault, Property, species_of};
use std::alloc::Global;
use tool_runs::RefusalName;

/// Why two groups have no answer.
#[derive(Clone, Copy, Debug, PartialEq, Eq, Drop)]
pub(crate) enum NoText {
    Refused(RefusalName),
    NoMemory,
}

/// Appends the line of a property. After an error a part of it may stand behind what was there.
fn answer_property(
    alloc: Global,
    states: &States,
    property: Property,
    out: &mut Vec<u8>,
) -> Result<(), DifferFault>
    requires { IsFramed (In states.now.sub) }
    ensures line { OnOk result ((bytes : List ℕ) × IsPropertyLine property (In states.now.sub) states.now.reps bytes × (out.new.items ≡ out.old.items ++ bytes)) }
    ensures calm { OnOk result (MarksGrow (property_symbol property) (In states.now.whole) (In states.now.sub) → ⊥) }
    ensures grows { IfErr result (λ e. e ≡ DifferFault.TooLarge → MarksGrow (property_symbol property) (In states.now.whole) (In states.now.sub)) }
{
    let species = match species_of(alloc, states, property) {
        Ok(species) => species,
        Err(fault) => return Err(fault),
    };
    match write_property(property, &species, out) {
        Ok(()) => Ok(()),
        Err(_) => Err(DifferFault::NoMemory),
    }
}

/// The answer for the states of a group under its subgroup.
fn answer_states(
    alloc: Global,
    g: &SymbolTree,
    f: &SymbolTree,
    states: &States,
) -> Result<Vec<u8>, DifferFault>
    requires { IsFramed (In states.now.sub) }
    ensures text { IfOk result (λ v. IsSpeciesOver g.now f.now (In states.now.sub) states.now.reps v.items) }
    ensures calm { IfOk result (λ _. SomeGrows (In states.now.whole) (In states.now.sub) → ⊥) }
    ensures grows { IfErr result (λ e. e ≡ DifferFault.TooLarge → SomeGrows (In states.now.whole) (In states.now.sub)) }
{
    let mut out = Vec::new(alloc);
    match write_header(g, f, states.count(), &mut out) {
        Ok(()) => {}
        Err(_) => return Err(DifferFault::NoMemory),
    }
    answer_property(alloc, states, Property::Electric, &mut out)?;
    answer_property(alloc, states, Property::Elastic, &mut out)?;
    answer_property(alloc, states, Property::Magnetic, &mut out)?;
    Ok(out)
}

/// The answer to two groups.
pub(crate) fn answer_groups(
    alloc: Global,
    g: &SymbolTree,
    f: &SymbolTree,
    whole: Group,
    sub: Group,
) -> Result<Vec<u8>, NoText>
    requires whole { IsListing comes_before (InGroup g.now) whole }
    requires sub { IsListing comes_before (InGroup f.now) sub }
    requires framed { IsFramed (In sub) }
    ensures text { IfOk result (λ text. IsPairAnswered g.now f.now text.items) }
    ensures stop { IfErr result (IsPairStop g.now f.now) }
{
    let states = match list_states(alloc, whole, sub) {
        Ok(states) => states,
        Err(StateFault::NotSubgroup { first }) => {
            return Err(NoText::Refused(RefusalName::NotSub(first)));
        }
        Err(StateFault::NoMemory) => return Err(NoText::NoMemory),
    };
    match answer_states(alloc, g, f, &states) {
        Ok(text) => Ok(text),
        Err(DifferFault::TooLarge) => Err(NoText::Refused(RefusalName::TooLarge)),
        Err(DifferFault::NoMemory) => Err(NoText::NoMemory),
    }
}
