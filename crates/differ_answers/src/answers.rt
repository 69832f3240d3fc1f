//! The answer to a request for the components that tell the domain states apart.
ghost use Rattle.std.specs.Prelude.{◌≡◌, ◌≤◌, ◌++◌, ℕ, List, IfErr, OnErr, OnOk, vec_capacity};
ghost use Rattle.tensor_defs.specs.Frames.{AllOf, IsFramed, IsPlain};
ghost use Rattle.tensor_defs.specs.Group.{InGroup};
ghost use Rattle.tensor_defs.specs.Jahn.{JahnSymbol, rank};
ghost use Rattle.tensor_defs.specs.Lists.{IsListing};
ghost use Rattle.tensor_defs.specs.OperationOrder.{comes_before};
ghost use Rattle.tensor_defs.specs.Orders.{index_before};
ghost use Rattle.tensor_defs.specs.StateRows.{RowsGrow};
ghost use Rattle.tensor_defs.specs.Table.{Fits};
ghost use Rattle.text_defs.specs.Answers.{IsDifferText};
ghost use Rattle.text_defs.specs.Refusals.{IsOutside};
ghost use Rattle.jahn_grammar.specs.Symbols.{symbol_of};
ghost use Rattle.magnetic_groups.specs.Sets.{In};
ghost use Rattle.tensor_rank.specs.Shapes.{IsShapeOf};
ghost use Rattle.reduced_form.specs.Forms.{HasUnitRows, IsWellFormed, form_table};
ghost use Rattle.state_marks.specs.Told.{MarksGrow};
ghost use Rattle.answer_writers.specs.Rows.{IsLonger};
ghost use Rattle.differ_answers.specs.Told.{AreWritten, IsDifferOver};

use crate::faults::DifferAnswerFault;
use crate::headers::write_header;
use crate::known::write_known;
use coset_states::{States, list_states};
use group_symbol::SymbolTree;
use jahn_grammar::Jahn;
use magnetic_groups::Group;
use reduced_form::Form;
use state_marks::{DifferFault, first_form};
use std::alloc::Global;
use tensor_rank::{Rank, Shape, at_rank, compile};

/// Appends the texts of the states from the second on, with the rows of one state at a time. The equations of a state
/// stand in the answer for those whose operations act alike. After an error, lines may stand behind what was there.
fn write_states<R: Rank>(
    alloc: Global,
    states: &States,
    form: &Form<R>,
    shape: &Shape<R>,
    out: &mut Vec<u8>,
) -> Result<(), DifferFault>
    requires { IsWellFormed R.R (form_table R.R form.now) }
    ensures ok { OnOk result ((j : JahnSymbol) → IsShapeOf j R.R shape.now → Fits j (In states.now.sub) index_before (form_table R.R form.now) → AreWritten j (In states.now.whole) (In states.now.sub) (form_table R.R form.now) states.now.reps out.old.items out.new.items) }
    ensures grows { IfErr result (λ e. e ≡ DifferFault.TooLarge → (j : JahnSymbol) → IsShapeOf j R.R shape.now → Fits j (In states.now.sub) index_before (form_table R.R form.now) → RowsGrow j (In states.now.whole) (In states.now.sub)) }
    ensures units { IfErr result (λ e. e ≡ DifferFault.TooLarge → ¬ HasUnitRows R.LEN form.now) }
    ensures longer { IsLonger out.old.items out.new.items }
    ensures capacity { vec_capacity out.old ≤ vec_capacity out.new }
{
    let flags = shape.flags();
    let mut known = Vec::new(alloc);
    for place in 1..states.count() {
        let op = states.representative(place + 1);
        write_known(alloc, place + 1, form, &op, flags, &mut known, out)?;
    }
    Ok(())
}

/// Appends the text of an answer by the table of the first state. After an error, lines may stand behind what was there.
fn write_text<R: Rank>(
    alloc: Global,
    g: &SymbolTree,
    f: &SymbolTree,
    states: &States,
    jahn: &Jahn,
    form: &Form<R>,
    shape: &Shape<R>,
    out: &mut Vec<u8>,
) -> Result<(), DifferFault>
    requires shape { IsShapeOf (symbol_of jahn.now) R.R shape.now }
    requires fits { Fits (symbol_of jahn.now) (In states.now.sub) index_before (form_table R.R form.now) }
    ensures ok { OnOk result (IsDifferOver g.now f.now (symbol_of jahn.now) (In states.now.whole) (In states.now.sub) states.now.reps out.old.items out.new.items) }
    ensures grows { IfErr result (λ e. e ≡ DifferFault.TooLarge → RowsGrow (symbol_of jahn.now) (In states.now.whole) (In states.now.sub)) }
    ensures units { IfErr result (λ e. e ≡ DifferFault.TooLarge → ¬ HasUnitRows R.LEN form.now) }
    ensures longer { IsLonger out.old.items out.new.items }
    ensures capacity { vec_capacity out.old ≤ vec_capacity out.new }
{
    write_header(g, f, jahn, states.count(), form, out)?;
    write_states(alloc, states, form, shape, out)
}

/// Appends the text of an answer by the table of the first state. After an error the list is as before.
fn write_answer<R: Rank>(
    alloc: Global,
    g: &SymbolTree,
    f: &SymbolTree,
    states: &States,
    jahn: &Jahn,
    form: &Form<R>,
    shape: &Shape<R>,
    out: &mut Vec<u8>,
) -> Result<(), DifferFault>
    requires shape { IsShapeOf (symbol_of jahn.now) R.R shape.now }
    requires fits { Fits (symbol_of jahn.now) (In states.now.sub) index_before (form_table R.R form.now) }
    ensures ok { OnOk result (IsDifferOver g.now f.now (symbol_of jahn.now) (In states.now.whole) (In states.now.sub) states.now.reps out.old.items out.new.items) }
    ensures grows { IfErr result (λ e. e ≡ DifferFault.TooLarge → RowsGrow (symbol_of jahn.now) (In states.now.whole) (In states.now.sub)) }
    ensures units { IfErr result (λ e. e ≡ DifferFault.TooLarge → ¬ HasUnitRows R.LEN form.now) }
    ensures err { OnErr result (out.new.items ≡ out.old.items) }
    ensures capacity { vec_capacity out.old ≤ vec_capacity out.new }
{
    let start = out.len();
    match write_text(alloc, g, f, states, jahn, form, shape, out) {
        Ok(()) => Ok(()),
        Err(fault) => {
            out.truncate(start);
            Err(fault)
        }
    }
}

/// Appends the answer for a symbol whose shape is known. After an error the list is as before.
fn differ_at<R: Rank>(
    alloc: Global,
    g: &SymbolTree,
    f: &SymbolTree,
    states: &States,
    jahn: &Jahn,
    shape: &Shape<R>,
    out: &mut Vec<u8>,
) -> Result<(), DifferFault>
    requires whole { IsListing comes_before (InGroup g.now) states.now.whole }
    requires sub { IsListing comes_before (InGroup f.now) states.now.sub }
    requires framed { IsFramed (In states.now.sub) }
    requires shape { IsShapeOf (symbol_of jahn.now) R.R shape.now }
    ensures ok { OnOk result ((bytes : List ℕ) × IsDifferText g.now f.now (symbol_of jahn.now) bytes × (out.new.items ≡ out.old.items ++ bytes)) }
    ensures calm { OnOk result (MarksGrow (symbol_of jahn.now) (InGroup g.now) (InGroup f.now) → ⊥) }
    ensures grows { IfErr result (λ e. e ≡ DifferFault.TooLarge → MarksGrow (symbol_of jahn.now) (InGroup g.now) (InGroup f.now)) }
    ensures plain { IfErr result (λ e. e ≡ DifferFault.TooLarge → ¬ AllOf (InGroup f.now) IsPlain) }
    ensures err { OnErr result (out.new.items ≡ out.old.items) }
    ensures capacity { vec_capacity out.old ≤ vec_capacity out.new }
{
    let _count = states.count();
    let form = first_form(alloc, states, shape)?;
    write_answer(alloc, g, f, states, jahn, &form, shape, out)
}

/// Appends the answer for the states of a group under its subgroup, as where several symbols of tensors are asked for:
/// a header, and for each state from the second on the rows of the components that differ, in index order. `TooLarge`
/// where a number of the elimination or of a row grows past its bound. After an error the list is as before.
pub fn answer_in_states(
    alloc: Global,
    g: &SymbolTree,
    f: &SymbolTree,
    states: &States,
    jahn: &Jahn,
    out: &mut Vec<u8>,
) -> Result<(), DifferFault>
    requires whole { IsListing comes_before (InGroup g.now) states.now.whole }
    requires sub { IsListing comes_before (InGroup f.now) states.now.sub }
    requires framed { IsFramed (In states.now.sub) }
    requires rank { rank (symbol_of jahn.now) ≤ 6 }
    ensures ok { OnOk result ((bytes : List ℕ) × IsDifferText g.now f.now (symbol_of jahn.now) bytes × (out.new.items ≡ out.old.items ++ bytes)) }
    ensures calm { OnOk result (MarksGrow (symbol_of jahn.now) (InGroup g.now) (InGroup f.now) → ⊥) }
    ensures grows { IfErr result (λ e. e ≡ DifferFault.TooLarge → MarksGrow (symbol_of jahn.now) (InGroup g.now) (InGroup f.now)) }
    ensures plain { IfErr result (λ e. e ≡ DifferFault.TooLarge → ¬ AllOf (InGroup f.now) IsPlain) }
    ensures err { OnErr result (out.new.items ≡ out.old.items) }
    ensures capacity { vec_capacity out.old ≤ vec_capacity out.new }
{
    match compile(alloc, jahn) {
        Ok(shape) => at_rank!(shape, s => differ_at(alloc, g, f, states, jahn, &s, out)),
        Err(_) => Err(DifferFault::NoMemory),
    }
}

/// Appends the answer to a request for the components that tell the states of a group under its subgroup apart. An element
/// of the second group that isn't in the first is told before a number that grows. After an error the list is as before.
pub fn answer_differ(
    alloc: Global,
    g: &SymbolTree,
    f: &SymbolTree,
    whole: Group,
    sub: Group,
    jahn: &Jahn,
    out: &mut Vec<u8>,
) -> Result<(), DifferAnswerFault>
    requires whole { IsListing comes_before (InGroup g.now) whole }
    requires sub { IsListing comes_before (InGroup f.now) sub }
    requires framed { IsFramed (In sub) }
    requires rank { rank (symbol_of jahn.now) ≤ 6 }
    ensures ok { OnOk result ((bytes : List ℕ) × IsDifferText g.now f.now (symbol_of jahn.now) bytes × (out.new.items ≡ out.old.items ++ bytes)) }
    ensures within { OnOk result ((k : ℕ) → ¬ IsOutside g.now f.now k) }
    ensures calm { OnOk result (MarksGrow (symbol_of jahn.now) (InGroup g.now) (InGroup f.now) → ⊥) }
    ensures refused { IfErr result (λ e. (k : ℕ) → e ≡ DifferAnswerFault.NotSubgroup k → IsOutside g.now f.now k) }
    ensures inside { IfErr result (λ e. e ≡ DifferAnswerFault.TooLarge → (k : ℕ) → ¬ IsOutside g.now f.now k) }
    ensures grows { IfErr result (λ e. e ≡ DifferAnswerFault.TooLarge → MarksGrow (symbol_of jahn.now) (InGroup g.now) (InGroup f.now)) }
    ensures plain { IfErr result (λ e. e ≡ DifferAnswerFault.TooLarge → ¬ AllOf (InGroup f.now) IsPlain) }
    ensures err { OnErr result (out.new.items ≡ out.old.items) }
    ensures capacity { vec_capacity out.old ≤ vec_capacity out.new }
{
    let states = list_states(alloc, whole, sub)?;
    match answer_in_states(alloc, g, f, &states, jahn, out) {
        Ok(()) => Ok(()),
        Err(fault) => Err(DifferAnswerFault::of(fault)),
    }
}
