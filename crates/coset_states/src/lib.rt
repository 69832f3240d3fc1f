//! Domain states: the left cosets of a group in a group. Source: International Tables for Crystallography D 3.4.
#![tactic(auto)]

ghost use Rattle.std.specs.Prelude.{◌≡◌, ◌≤◌, ◌↔◌, ℕ, IsTrue, IfErr, IfOk, length, replicate, Contains, Some};
ghost use Rattle.tensor_defs.specs.Operation.{Operation};
ghost use Rattle.tensor_defs.specs.Frames.{HaveCommonFrame};
ghost use Rattle.tensor_defs.specs.States.{AreStates, IsState, Times};
ghost use Rattle.magnetic_groups.specs.Sets.{In, IsGroup, IsWithin};
ghost use Rattle.coset_states.specs.Numbering.{IsKept, IsNumbered, TellsState};
ghost use Rattle.coset_states.specs.Refusals.{IsRefusal};

#[cfg(test)]
mod tests;

use magnetic_groups::Group;
use op_matrix::Op;
use std::alloc::{AllocError, Global};
use std::marker::Model;
use thiserror::Error;

/// Why there are no states.
#[derive(Clone, Copy, Debug, PartialEq, Eq, Drop, Error)]
pub enum StateFault {
    /// An element of the second group isn't in the first: the least place of one, counted from 1.
    #[error("element {first} of the second group isn't in the first")]
    NotSubgroup { first: usize },
    /// No memory was left.
    #[error("no memory was left")]
    NoMemory,
}

impl From<AllocError> for StateFault {
    ghost use Rattle.coset_states.specs.declared.StateFault.TheVariants.{NoMemory};
    ghost use Rattle.std.specs.Prelude.{◌≡◌};

    ghost from_gives = { λ _ e. e ≡ NoMemory };

    fn from(_: AllocError) -> StateFault {
        StateFault::NoMemory
    }
}

/// The states, counted from 1 in the order of their least elements: a group, its subgroup, the least elements, and
/// at the place of each operation the number of its state, 0 for none.
#[derive(Drop)]
pub struct States {
    whole: Group,
    sub: Group,
    representatives: Vec<Op>,
    numbers: [usize; 128],
}

impl Model for States {
    ghost use Rattle.coset_states.specs.Numbering.{Cosets, IsKept};

    ghost Value = { Cosets };

    ghost view = { λ s. record { whole = s.whole; sub = s.sub; reps = s.representatives.items } };

    ghost invariant = { λ s. IsKept s.whole s.sub s.representatives.items s.numbers };
}

/// Gives the places of the coset of `first` the number of its state.
fn number_coset(sub: &Group, first: &Op, number: usize, numbers: &mut [usize])
    requires sized { length numbers.old ≡ 128 }
    requires frame { (g : Operation) → Contains sub.now g → HaveCommonFrame first.now g }
    ensures { IsNumbered sub.now first.now number (length sub.now) numbers.old numbers.new }
{
    for place in 0..sub.len() {
        let product = first.product(&sub.at(place));
        numbers[product.place()] = number;
    }
}

/// The least elements of the left cosets, in their order, with the numbers of the states.
fn number_all(
    alloc: Global,
    whole: &Group,
    sub: &Group,
    numbers: &mut [usize],
) -> Result<Vec<Op>, AllocError>
    requires none { numbers.old ≡ replicate 128 0 }
    requires within { IsWithin sub.now whole.now }
    ensures { IfOk result (λ v. IsKept whole.now sub.now v.items numbers.new) }
{
    // what the length tells of the group is for the proof
    let _size = sub.len();
    let mut representatives = Vec::new(alloc);
    for place in 0..whole.len() {
        let element = whole.at(place);
        if numbers[element.place()] == 0 {
            representatives.push(element)?;
            number_coset(sub, &element, representatives.len(), numbers);
        }
    }
    Ok(representatives)
}

/// The states of a group `g` under its subgroup `f`.
pub fn list_states(alloc: Global, g: Group, f: Group) -> Result<States, StateFault>
    ensures groups { IfOk result (λ s. (s.whole ≡ g) × (s.sub ≡ f)) }
    ensures within { IfOk result (λ _. IsWithin f g) }
    ensures states { IfOk result (λ s. AreStates (In g) (In f) s.reps) }
    ensures refused { IfErr result (IsRefusal g f) }
{
    if let Some(first) = f.first_outside(&g) {
        return Err(StateFault::NotSubgroup { first: first + 1 });
    }
    let mut numbers = [0usize; 128];
    let representatives = number_all(alloc, &g, &f, &mut numbers)?;
    Ok(States {
        whole: g,
        sub: f,
        representatives,
        numbers,
    })
}

impl States {
    /// The number of states.
    pub fn count(&self) -> usize
        ensures is { result ≡ length self.now.reps }
        ensures few { result ≤ 128 }
        ensures states { AreStates (In self.now.whole) (In self.now.sub) self.now.reps }
        ensures groups { IsGroup self.now.whole × IsGroup self.now.sub }
        ensures within { IsWithin self.now.sub self.now.whole }
    {
        // a field that is read brings the invariant into the proof
        let _numbers = &self.numbers;
        let _size = self.whole.len();
        self.representatives.len()
    }

    /// The least element of a state.
    pub fn representative(&self, k: usize) -> Op
        requires from_one { 1 ≤ k }
        requires to_count { k ≤ length self.now.reps }
        ensures { IsState self.now.reps k result }
    {
        self.representatives[k - 1]
    }

    /// Whether the operation is in a state.
    pub fn has(&self, k: usize, op: &Op) -> bool
        requires from_one { 1 ≤ k }
        requires to_count { k ≤ length self.now.reps }
        ensures { (r : Operation) → IsState self.now.reps k r → IsTrue result ↔ Times r (In self.now.sub) op.now }
    {
        self.numbers[op.place()] == k
    }

    /// The state that an operation is in; none exactly where it isn't in the whole group.
    pub fn state_of(&self, op: &Op) -> Option<usize>
        ensures state { TellsState self.now op.now result }
        ensures only { (k : ℕ) (r : Operation) → IsState self.now.reps k r → Times r (In self.now.sub) op.now → result ≡ Some k }
    {
        let number = self.numbers[op.place()];
        if number == 0 {
            return None;
        }
        Some(number)
    }

    /// The group whose elements the states hold.
    pub fn whole(&self) -> &Group
        ensures { result.now ≡ self.now.whole }
    {
        &self.whole
    }

    /// The group that is the first state.
    pub fn sub(&self) -> &Group
        ensures { result.now ≡ self.now.sub }
    {
        &self.sub
    }
}
