//! Pair classes of domain states: the double cosets of a group in a group, with what is told of each. Source:
//! International Tables for Crystallography D 3.4.
#![tactic(auto)]

ghost use Rattle.std.specs.Prelude.{◌≡◌, ◌≤◌, ◌<◌, ◌↔◌, ℕ, IsTrue, IfOk, length, Contains, slice_get, Some, None, [], ◌∷◌, ◌++◌, map};
ghost use Rattle.tensor_defs.specs.Lists.{Each};
ghost use Rattle.tensor_defs.specs.Operation.{Operation, IsProduct};
ghost use Rattle.tensor_defs.specs.States.{IsState, IsSwappable, Times};
ghost use Rattle.tensor_defs.specs.PairClasses.{ArePairClasses};
ghost use Rattle.tensor_defs.specs.Names.{IsNameOf};
ghost use Rattle.magnetic_groups.specs.Sets.{In, IsWithin};
ghost use Rattle.coset_states.specs.Numbering.{TellsState};
ghost use Rattle.twin_pairs.specs.Classes.{AreAdded, AreMarked, AreMembers, HasNoEarlier, IsClassFrom, IsLast, class_of};

#[cfg(test)]
mod tests;

use coset_states::States;
use group_names::first_name;
use group_symbol::SymbolTree;
use magnetic_groups::{Group, GroupMarks};
use op_matrix::Op;
use std::alloc::{AllocError, Global};
use std::marker::Model;

/// No memory was left.
#[derive(Clone, Copy, Debug, PartialEq, Eq, Drop)]
pub struct NoMemory;

impl From<AllocError> for NoMemory {
    fn from(_: AllocError) -> NoMemory {
        NoMemory
    }
}

/// The numbers of the states of a class, rising.
#[derive(Drop)]
pub struct Members {
    numbers: Vec<usize>,
}

impl Model for Members {
    ghost use Rattle.std.specs.Prelude.{List, ℕ};

    ghost Value = { List ℕ };

    ghost view = { λ s. s.numbers.items };
}

impl Members {
    /// How many they are.
    pub fn len(&self) -> usize
        ensures { result ≡ length self.now }
    {
        self.numbers.len()
    }

    /// The number at a place, counted from 0.
    pub fn at(&self, place: usize) -> usize
        requires { place < length self.now }
        ensures { slice_get self.now place ≡ Some result }
    {
        self.numbers[place]
    }
}

/// A class of ordered pairs of the first state and another.
#[derive(Drop)]
pub struct PairClass {
    /// The numbers of the other states.
    pub members: Members,
    /// Whether an element of the whole group exchanges the two states.
    pub swappable: bool,
    /// The elements that keep both states.
    pub pair_group: GroupMarks,
    /// Its name.
    pub pair_name: Option<SymbolTree>,
    /// The group that the subgroup and the least state's representative generate.
    pub twin_group: GroupMarks,
    /// Its name.
    pub twin_name: Option<SymbolTree>,
}

/// The state in which the product of an element of the subgroup and another element lies.
fn state_of_product(states: &States, member: &Op, element: &Op) -> usize
    requires member { Contains states.now.sub member.now }
    requires inside { Contains states.now.whole element.now }
    ensures few { result ≤ 128 }
    ensures state { (g : Operation) → IsProduct member.now element.now g → TellsState states.now g (Some result) }
    ensures only { (g r : Operation) (k : ℕ) → IsProduct member.now element.now g → IsState states.now.reps k r → Times r (In states.now.sub) g → k ≡ result }
{
    // what the count tells of the groups is for the proof
    let _count = states.count();
    let product = member.product(element);
    let Some(state) = states.state_of(&product) else {
        unreachable!()
    };
    state
}

/// The states that lie in a double coset, each marked at the place of its number, and the greatest of their numbers.
struct Marked {
    marks: [bool; 129],
    last: usize,
}

/// Marks the states that lie in the double coset of an element.
fn mark_states(states: &States, element: &Op) -> Marked
    requires { Contains states.now.whole element.now }
    ensures marked { AreMarked states.now element.now result.marks }
    ensures last { IsLast result.marks result.last }
{
    // what the count tells of the groups is for the proof
    let _count = states.count();
    let mut marks = [false; 129];
    let mut last = 0;
    let sub = states.sub();
    for place in 0..sub.len() {
        let state = state_of_product(states, &sub.at(place), element);
        marks[state] = true;
        last = last.max(state);
    }
    Marked { marks, last }
}

/// The numbers of the states in the double coset of the representative of state `k`, the least of them.
fn list_members(
    alloc: Global,
    states: &States,
    element: &Op,
    k: usize,
) -> Result<Members, AllocError>
    requires least { IsState states.now.reps k element.now }
    requires to_count { k ≤ length states.now.reps }
    requires inside { Contains states.now.whole element.now }
    requires first { HasNoEarlier states.now element.now k }
    ensures { IfOk result (AreMembers states.now element.now k) }
{
    let Marked { marks, last } = mark_states(states, element);
    let mut numbers = Vec::with_capacity(alloc, states.sub().len())?;
    numbers.push(k)?;
    for place in k..last.min(states.count()) {
        if marks[place + 1] {
            numbers.push(place + 1)?;
        }
    }
    Ok(Members { numbers })
}

/// Marks the members of a class, each at the place of its number.
fn mark_members(members: &Members, marks: &mut [bool])
    requires sized { length marks.old ≡ 129 }
    requires few { Each (λ k. k ≤ 128) members.now }
    ensures sized { length marks.new ≡ 129 }
    ensures added { AreAdded members.now (length members.now) marks.old marks.new }
{
    for place in 0..members.len() {
        marks[members.at(place)] = true;
    }
}

/// Whether some element of the whole group exchanges the first state and that of the element.
fn is_swappable(states: &States, element: &Op) -> bool
    requires inside { Contains states.now.whole element.now }
    ensures { IsTrue result ↔ IsSwappable (In states.now.whole) (In states.now.sub) element.now }
{
    // what the count tells of the places is for the proof
    let _count = states.count();
    let sub = states.sub();
    for place in 0..sub.len() {
        let member = sub.at(place);
        let half = element.product(&member);
        let product = half.product(element);
        if sub.has(&product) {
            return true;
        }
    }
    false
}

/// The name of a pair group. Where it is the whole subgroup, its name is known.
fn pair_name(
    sub: &GroupMarks,
    sub_name: &Option<SymbolTree>,
    pair_group: &GroupMarks,
) -> Option<SymbolTree>
    requires named { IsNameOf sub_name.now (In sub.now) }
    requires below { IsWithin pair_group.now sub.now }
    ensures { IsNameOf result (In pair_group.now) }
{
    if sub.is_subset(pair_group) {
        return *sub_name;
    }
    first_name(pair_group)
}

/// The class of the state `k`, the least of its class.
fn pair_class(
    alloc: Global,
    states: &States,
    sub_name: &Option<SymbolTree>,
    element: &Op,
    k: usize,
) -> Result<PairClass, NoMemory>
    requires named { IsNameOf sub_name.now (In states.now.sub) }
    requires least { IsState states.now.reps k element.now }
    requires to_count { k ≤ length states.now.reps }
    requires inside { Contains states.now.whole element.now }
    requires first { HasNoEarlier states.now element.now k }
    ensures { IfOk result (λ c. IsClassFrom states.now element.now k (class_of c)) }
{
    // what the count tells of the places is for the proof
    let _count = states.count();
    let members = list_members(alloc, states, element, k)?;
    let swappable = is_swappable(states, element);
    let sub = states.sub();
    let pair_group = sub.conjugate_marks(element);
    let pair_name = pair_name(&sub.marks(), sub_name, &pair_group);
    let twin_group = sub.joined_marks(element);
    let twin_name = first_name(&twin_group);
    Ok(PairClass {
        members,
        swappable,
        pair_group,
        pair_name,
        twin_group,
        twin_name,
    })
}

/// Puts a class at the end.
fn append(classes: &mut Vec<PairClass>, class: PairClass) -> Result<(), AllocError>
    ensures { IfOk result (λ _. classes.new.items ≡ classes.old.items ++ class ∷ []) }
{
    classes.push(class)?;
    Ok(())
}

/// The pair classes in the order of their least states.
pub fn pair_classes(alloc: Global, states: &States) -> Result<Vec<PairClass>, NoMemory>
    ensures { IfOk result (λ v. ArePairClasses (In states.now.whole) (In states.now.sub) states.now.reps (map class_of v.items)) }
{
    let sub_name = first_name(&states.sub().marks());
    let mut classes = Vec::with_capacity(alloc, states.count())?;
    let mut seen = [false; 129];
    for place in 0..states.count() {
        if !seen[place + 1] {
            let element = states.representative(place + 1);
            let class = pair_class(alloc, states, &sub_name, &element, place + 1)?;
            mark_members(&class.members, &mut seen);
            append(&mut classes, class)?;
        }
    }
    Ok(classes)
}
