//! The text of a state: the equations of the components that distinguish it.
ghost use Rattle.std.specs.Prelude.{◌≡◌, ◌++◌, ◌<◌, ◌≤◌, IfOk, OnOk, cond, length, vec_capacity};
ghost use Rattle.text_defs.specs.AnswerTexts.{state_text};
ghost use Rattle.reduced_form.specs.Forms.{form_table};
ghost use Rattle.state_marks.specs.Told.{row_of};
ghost use Rattle.answer_writers.specs.Rows.{IsLonger};
ghost use Rattle.differ_answers.specs.Standing.{AreLines};
ghost use Rattle.differ_answers.specs.Texts.{AreNamed, marked_below, marked_indices, marked_text};

use crate::equations::write_equation;
use crate::faults::NoMemory;
use crate::headers::write_front;
use reduced_form::Form;
use state_marks::StateRows;
use std::alloc::Global;
use tensor_rank::{Comp, Rank};

/// How many equations a state has, and where they stand among the bytes of an answer.
#[derive(Clone, Copy)]
pub struct Lines {
    pub count: usize,
    pub start: usize,
    pub end: usize,
}

/// 1 for a component that differs, else 0.
fn one_if(marked: bool) -> usize
    ensures { result ≡ cond marked 1 0 }
{
    if marked { 1 } else { 0 }
}

/// How many components differ in a state.
fn count_marked<R: Rank>(rows: &StateRows<R>) -> usize
    ensures { result ≡ length (marked_below R.R rows.now R.LEN) }
{
    let mut count = 0;
    for number in 0..R::LEN {
        count += one_if(rows.is_marked(Comp::at(number)));
    }
    count
}

/// Appends the equation of the component of a number, if it differs.
fn write_marked<R: Rank>(
    alloc: Global,
    form: &Form<R>,
    rows: &StateRows<R>,
    number: usize,
    out: &mut Vec<u8>,
) -> Result<(), NoMemory>
    requires number { number < R.LEN }
    requires named { AreNamed R.LEN (length form.now.free) rows.now }
    ensures ok { OnOk result (out.new.items ≡ out.old.items ++ marked_text R.R form.now rows.now number) }
    ensures longer { IsLonger out.old.items out.new.items }
    ensures capacity { vec_capacity out.old ≤ vec_capacity out.new }
{
    let c = Comp::at(number);
    if rows.is_marked(c) {
        write_equation(alloc, form, c, rows.row(c), out)?;
    }
    Ok(())
}

/// Appends the text of a state, and tells where its equations stand.
pub fn write_state<R: Rank>(
    alloc: Global,
    number: usize,
    form: &Form<R>,
    rows: &StateRows<R>,
    out: &mut Vec<u8>,
) -> Result<Lines, NoMemory>
    requires named { AreNamed R.LEN (length form.now.free) rows.now }
    ensures ok { OnOk result (out.new.items ≡ out.old.items ++ state_text number R.R (form_table R.R form.now) (marked_indices R.R rows.now) (row_of rows.now)) }
    ensures lines { IfOk result (AreLines R.R (form_table R.R form.now) rows.now out.new.items) }
    ensures longer { IsLonger out.old.items out.new.items }
    ensures capacity { vec_capacity out.old ≤ vec_capacity out.new }
{
    let count = count_marked(rows);
    write_front(number, count, R::LEN, out)?;
    let start = out.as_slice().len();
    for component in 0..R::LEN {
        write_marked(alloc, form, rows, component, out)?;
    }
    let end = out.as_slice().len();
    Ok(Lines { count, start, end })
}
