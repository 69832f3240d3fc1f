//! The domain states.
ghost use Rattle.std.specs.Prelude.{◌≡◌, ◌≤◌, ◌++◌, List, ℕ, IfErr, OnErr, OnOk, vec_capacity};
ghost use Rattle.tensor_defs.specs.Operation.{Operation};
ghost use Rattle.tensor_defs.specs.OperationOrder.{comes_before};
ghost use Rattle.tensor_defs.specs.Lists.{IsListing};
ghost use Rattle.tensor_defs.specs.Group.{InGroup};
ghost use Rattle.tensor_defs.specs.States.{AreStates};
ghost use Rattle.text_defs.specs.AnswerTexts.{states_text};
ghost use Rattle.text_defs.specs.Refusals.{IsOutside};
ghost use Rattle.answer_writers.specs.Rows.{IsLonger};

use crate::pieces::write_front;
use answer_writers::{NoMemory, OperationList, append_to, write_numbered};
use coset_states::{StateFault, States, list_states};
use group_symbol::SymbolTree;
use magnetic_groups::Group;
use op_matrix::Op;
use std::alloc::Global;

/// The least elements of the states, in their order.
#[derive(Clone, Copy)]
struct Representatives<'a> {
    states: &'a States,
}

impl OperationList for Representatives<'_> {
    ghost listed = { λ r. r.states.now.reps };

    fn size(&self) -> usize {
        self.states.count()
    }

    fn operation(&self, place: usize) -> Op {
        // what the count tells of the places is for the proof
        let _count = self.states.count();
        self.states.representative(place + 1)
    }
}

/// Appends the header and a line for each state. After `NoMemory` the list begins as before.
fn write_listing(
    alloc: Global,
    g: &SymbolTree,
    f: &SymbolTree,
    states: &States,
    out: &mut Vec<u8>,
) -> Result<(), NoMemory>
    ensures ok { OnOk result (out.new.items ≡ out.old.items ++ states_text g.now f.now states.now.reps) }
    ensures longer { IsLonger out.old.items out.new.items }
    ensures capacity { vec_capacity out.old ≤ vec_capacity out.new }
{
    write_front("states", g, f, "count", states.count(), out)?;
    append_to(out, b"\n")?;
    write_numbered("state", &Representatives { states }, out)
}

/// Appends the states. After `NoMemory`, the only fault, the list is as before.
fn write_states(
    alloc: Global,
    g: &SymbolTree,
    f: &SymbolTree,
    states: &States,
    out: &mut Vec<u8>,
) -> Result<(), StateFault>
    ensures ok { OnOk result (out.new.items ≡ out.old.items ++ states_text g.now f.now states.now.reps) }
    ensures err { OnErr result (out.new.items ≡ out.old.items) }
    ensures memory { IfErr result (λ e. e ≡ StateFault.NoMemory) }
    ensures capacity { vec_capacity out.old ≤ vec_capacity out.new }
{
    let start = out.len();
    match write_listing(alloc, g, f, states, out) {
        Ok(()) => Ok(()),
        Err(_) => {
            out.truncate(start);
            Err(StateFault::NoMemory)
        }
    }
}

/// Appends the answer to a request for the domain states. After an error the list is as before.
pub fn answer_states(
    alloc: Global,
    g: &SymbolTree,
    f: &SymbolTree,
    whole: Group,
    sub: Group,
    out: &mut Vec<u8>,
) -> Result<(), StateFault>
    requires whole { IsListing comes_before (InGroup g.now) whole }
    requires sub { IsListing comes_before (InGroup f.now) sub }
    ensures ok { OnOk result ((reps : List Operation) × AreStates (InGroup g.now) (InGroup f.now) reps × (out.new.items ≡ out.old.items ++ states_text g.now f.now reps)) }
    ensures within { OnOk result ((k : ℕ) → ¬ IsOutside g.now f.now k) }
    ensures refused { IfErr result (λ e. (k : ℕ) → e ≡ StateFault.NotSubgroup k → IsOutside g.now f.now k) }
    ensures err { OnErr result (out.new.items ≡ out.old.items) }
    ensures capacity { vec_capacity out.old ≤ vec_capacity out.new }
{
    let states = list_states(alloc, whole, sub)?;
    write_states(alloc, g, f, &states, out)
}
