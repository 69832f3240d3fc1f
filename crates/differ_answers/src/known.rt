//! Equations that stand in an answer already, and serve once more for a state whose operation acts like that of theirs.
ghost use Rattle.std.specs.Prelude.{◌≡◌, ◌++◌, ◌≤◌, List, ℕ, length, IfErr, IfSome, OnOk, vec_capacity};
ghost use Rattle.tensor_defs.specs.Lists.{Each};
ghost use Rattle.tensor_defs.specs.Table.{Table};
ghost use Rattle.text_defs.specs.AnswerTexts.{state_text};
ghost use Rattle.reduced_form.specs.Forms.{HasUnitRows, IsWellFormed, form_table};
ghost use Rattle.state_marks.specs.Told.{SomeRowGrows, StateValue, row_of};
ghost use Rattle.tensor_rank.specs.Flags.{marks_of};
ghost use Rattle.answer_writers.specs.Rows.{IsLonger};
ghost use Rattle.differ_answers.specs.Standing.{AreLines, IsKnown, IsState, Serves};
ghost use Rattle.differ_answers.specs.Texts.{marked_indices};

use crate::faults::NoMemory;
use crate::headers::write_front;
use crate::states::{Lines, write_state};
use answer_writers::append_to;
use op_matrix::Op;
use reduced_form::Form;
use state_marks::{DifferFault, act_alike, state_rows};
use std::alloc::Global;
use tensor_rank::{Flags, Rank};

/// Where the equations of the state of an operation stand.
#[derive(Drop)]
pub struct Known {
    op: Op,
    lines: Lines,
}

/// The equations that serve for an operation: those of one that acts alike, if there is one.
fn find_alike<R: Rank>(known: &[Known], flags: Flags, op: &Op) -> Option<Lines>
    ensures { IfSome result (λ l. (a : Table) (out : List ℕ) → Each (IsKnown (marks_of flags) R.R a out) known.now → Serves (marks_of flags) R.R a op.now out l) }
{
    for place in 0..known.len() {
        let earlier = &known[place];
        if act_alike::<R>(flags, &earlier.op, op) {
            return Some(earlier.lines);
        }
    }
    None
}

/// Appends the text of a state with equations that stand before.
fn write_again<R: Rank>(
    alloc: Global,
    number: usize,
    lines: Lines,
    out: &mut Vec<u8>,
) -> Result<(), NoMemory>
    requires order { lines.start ≤ lines.end }
    requires within { lines.end ≤ length out.old.items }
    ensures ok { OnOk result ((a : Table) (s : StateValue) → AreLines R.R a s out.old.items lines → out.new.items ≡ out.old.items ++ state_text number R.R a (marked_indices R.R s) (row_of s)) }
    ensures longer { IsLonger out.old.items out.new.items }
    ensures capacity { vec_capacity out.old ≤ vec_capacity out.new }
{
    let mut again = Vec::new(alloc);
    append_to(&mut again, &out[lines.start..lines.end])?;
    write_front(number, lines.count, R::LEN, out)?;
    append_to(out, again.as_slice())?;
    Ok(())
}

/// Appends the text of the state of an operation: the equations of one that acts alike serve again.
pub fn write_known<R: Rank>(
    alloc: Global,
    number: usize,
    form: &Form<R>,
    op: &Op,
    flags: Flags,
    known: &mut Vec<Known>,
    out: &mut Vec<u8>,
) -> Result<(), DifferFault>
    requires formed { IsWellFormed R.R (form_table R.R form.now) }
    requires known { Each (IsKnown (marks_of flags) R.R (form_table R.R form.now) out.old.items) known.old.items }
    ensures ok { OnOk result (IsState (marks_of flags) R.R (form_table R.R form.now) op.now number out.old.items out.new.items) }
    ensures known { OnOk result (Each (IsKnown (marks_of flags) R.R (form_table R.R form.now) out.new.items) known.new.items) }
    ensures grows { IfErr result (λ e. e ≡ DifferFault.TooLarge → SomeRowGrows (marks_of flags) op.now R.R (form_table R.R form.now)) }
    ensures units { IfErr result (λ e. e ≡ DifferFault.TooLarge → ¬ HasUnitRows R.LEN form.now) }
    ensures longer { IsLonger out.old.items out.new.items }
    ensures capacity { vec_capacity out.old ≤ vec_capacity out.new }
{
    match find_alike::<R>(known.as_slice(), flags, op) {
        Some(lines) => {
            write_again::<R>(alloc, number, lines, out)?;
            Ok(())
        }
        None => {
            let rows = state_rows(alloc, form, op, flags)?;
            let lines = write_state(alloc, number, form, &rows, out)?;
            known.push(Known { op: *op, lines })?;
            Ok(())
        }
    }
}
