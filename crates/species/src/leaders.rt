//! For each state the least state that isn't told apart from it.
ghost use Rattle.std.specs.Prelude.{◌≡◌, ◌≤◌, ◌<◌, ◌↔◌, ℕ, Contains, IfOk, IsTrue, Some, length, slice_get};
ghost use Rattle.tensor_defs.specs.Jahn.{JahnSymbol};
ghost use Rattle.magnetic_groups.specs.Sets.{In};
ghost use Rattle.species.specs.Species.{AreLeaders, IsLeader};
ghost use Rattle.species.specs.Told.{AreCarried, AreWithin, HasDifferent, TellsOnes, TellsOwn};

use crate::apart::are_apart;
use coset_states::States;
use std::alloc::{AllocError, Global};
use std::marker::Model;

/// The numbers of the least states, counted from 1, that aren't told apart from the states in order.
#[derive(Drop)]
pub struct Leaders {
    numbers: Vec<usize>,
}

impl Model for Leaders {
    ghost use Rattle.std.specs.Prelude.{List, ℕ};

    ghost Value = { List ℕ };

    ghost view = { λ s. s.numbers.items };
}

impl Leaders {
    /// How many states there are.
    pub fn len(&self) -> usize
        ensures { result ≡ length self.now }
    {
        self.numbers.len()
    }

    /// The number of the least state that isn't told apart from the state at a place, counted from 0.
    pub fn at(&self, place: usize) -> usize
        requires { place < length self.now }
        ensures { slice_get self.now place ≡ Some result }
    {
        self.numbers[place]
    }

    /// Whether a state, counted from 1, is the least of those that aren't told apart from some state.
    fn has(&self, number: usize) -> bool
        ensures { IsTrue result ↔ Contains self.now number }
    {
        self.numbers.contains(&number)
    }

    /// How many of the states are the least of those that aren't told apart from them.
    pub fn different(&self) -> usize
        requires { AreWithin self.now }
        ensures { HasDifferent self.now result }
    {
        let mut count = 0;
        for place in 0..self.numbers.len() {
            if self.has(place + 1) {
                count += 1;
            }
        }
        count
    }

    /// Whether each is state 1.
    pub(crate) fn are_ones(&self) -> bool
        ensures { TellsOnes self.now result }
    {
        for place in 0..self.numbers.len() {
            if self.numbers[place] != 1 {
                return false;
            }
        }
        true
    }

    /// Whether each is the state itself.
    pub(crate) fn are_own(&self) -> bool
        ensures { TellsOwn self.now result }
    {
        for place in 0..self.numbers.len() {
            if self.numbers[place] != place + 1 {
                return false;
            }
        }
        true
    }
}

/// The least state that isn't told apart from a state, by which states are carried.
fn leader_of(states: &States, carried: &[bool], k: usize) -> usize
    requires from_one { 1 ≤ k }
    requires to_count { k ≤ length states.now.reps }
    requires sized { length carried.now ≡ length states.now.reps }
    ensures { (j : JahnSymbol) → AreCarried j (In states.now.sub) states.now.reps carried.now → IsLeader j (In states.now.sub) states.now.reps k result }
{
    for l in 1..k {
        if !are_apart(states, carried, k, l) {
            return l;
        }
    }
    k
}

/// The least states that aren't told apart from the states in order, by which states are carried.
pub(crate) fn leaders_of(
    alloc: Global,
    states: &States,
    carried: &[bool],
) -> Result<Leaders, AllocError>
    requires { length carried.now ≡ length states.now.reps }
    ensures { IfOk result (λ ls. (j : JahnSymbol) → AreCarried j (In states.now.sub) states.now.reps carried.now → AreLeaders j (In states.now.sub) states.now.reps ls) }
{
    let mut numbers = Vec::with_capacity(alloc, states.count())?;
    for place in 0..states.count() {
        numbers.push(leader_of(states, carried, place + 1))?;
    }
    Ok(Leaders { numbers })
}
