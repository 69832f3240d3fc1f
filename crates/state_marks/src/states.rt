//! The rows of all components in one state.
ghost use Rattle.std.specs.Prelude.{◌≡◌, ◌≤◌, ◌<◌, IfErr, IfOk, OnOk, length};
ghost use Rattle.tensor_defs.specs.StateRows.{StateRowGrows};
ghost use Rattle.tensor_defs.specs.Tensor.{index_of};
ghost use Rattle.reduced_form.specs.Forms.{HasUnitRows, IsWellFormed, form_table};
ghost use Rattle.tensor_rank.specs.Flags.{marks_of};
ghost use Rattle.state_marks.specs.Adding.{IsRow};
ghost use Rattle.state_marks.specs.Sums.{IsZeros};
ghost use Rattle.state_marks.specs.Told.{AreStateRows, SomeRowGrows, mark_at, row_at};

use crate::adding::add_parts;
use crate::faults::DifferFault;
use crate::rows::{RootTerm, clear, differs, terms_of, zeros};
use op_matrix::Op;
use reduced_form::Form;
use root3_num::Root3;
use std::alloc::Global;
use std::marker::{Model, PhantomData};
use tensor_action::Parts;
use tensor_rank::{Comp, Flags, Rank};

/// The rows of all components in one state, and for each whether it differs from its row in the table.
#[derive(Drop)]
pub struct StateRows<R: Rank> {
    rows: Vec<Vec<RootTerm>>,
    marks: Vec<bool>,
    of: PhantomData<R>,
}

impl<R: Rank> Model for StateRows<R> {
    ghost use Rattle.std.specs.Prelude.{◌≡◌, length, map};
    ghost use Rattle.state_marks.specs.Told.{StateValue};

    ghost Value = { StateValue };

    ghost view = { λ s. record { rows = map (λ row. row.items) s.rows.items; marks = s.marks.items } };

    ghost invariant = { λ s. (length s.rows.items ≡ R.LEN) × (length s.marks.items ≡ R.LEN) };
}

/// A row, and whether it differs from that in the table.
#[derive(Drop)]
struct Row {
    terms: Vec<RootTerm>,
    marked: bool,
}

impl<R: Rank> StateRows<R> {
    /// Whether the row of a component differs from its row in the table.
    pub fn is_marked(&self, c: Comp<R>) -> bool
        ensures { result ≡ mark_at self.now c }
    {
        self.marks[c.number() as usize]
    }

    /// The terms of a component, by rising places.
    pub fn row(&self, c: Comp<R>) -> &[RootTerm]
        ensures { result.now ≡ row_at self.now c }
    {
        self.rows[c.number() as usize].as_slice()
    }
}

/// The row of the component of a number in a state, which leaves the sums at 0.
fn row_of<R: Rank>(
    alloc: Global,
    form: &Form<R>,
    op: &Op,
    flags: Flags,
    number: usize,
    parts: &mut Parts<R>,
    sums: &mut [Root3],
) -> Result<Row, DifferFault>
    requires number { number < R.LEN }
    requires formed { IsWellFormed R.R (form_table R.R form.now) }
    requires few { length form.now.free ≤ 729 }
    requires zeros { IsZeros (length form.now.free) sums.old }
    ensures ok { IfOk result (λ v. IsRow (marks_of flags) op.now R.R (form_table R.R form.now) (index_of R.R number) v.terms.items v.marked) }
    ensures zeros { OnOk result (IsZeros (length form.now.free) sums.new) }
    ensures grows { IfErr result (λ e. e ≡ DifferFault.TooLarge → StateRowGrows (marks_of flags) op.now (form_table R.R form.now) R.R (index_of R.R number)) }
{
    let to = Comp::at(number);
    add_parts(op, flags, form, to, parts, sums)?;
    let terms = terms_of(alloc, sums)?;
    let marked = differs(sums, terms.as_slice(), form.row(to));
    clear(sums, terms.as_slice());
    Ok(Row { terms, marked })
}

/// The rows of all components in the state of an operation, by a table. `TooLarge` exactly where one of them grows, and
/// never where each row of the table is empty or one free component with the factor 1 or -1.
pub fn state_rows<R: Rank>(
    alloc: Global,
    form: &Form<R>,
    op: &Op,
    flags: Flags,
) -> Result<StateRows<R>, DifferFault>
    requires { IsWellFormed R.R (form_table R.R form.now) }
    ensures ok { IfOk result (AreStateRows (marks_of flags) op.now R.R (form_table R.R form.now)) }
    ensures grows { IfErr result (λ e. e ≡ DifferFault.TooLarge → SomeRowGrows (marks_of flags) op.now R.R (form_table R.R form.now)) }
    ensures units { IfErr result (λ e. e ≡ DifferFault.TooLarge → ¬ HasUnitRows R.LEN form.now) }
{
    // an operation stands at a place among all of them, so its entries are small
    let _place = op.place();
    let mut held = zeros(alloc, form.free_count())?;
    let sums: &mut [Root3] = &mut held;
    let mut parts = Parts::<R>::new(alloc)?;
    let mut rows = Vec::with_capacity(alloc, R::LEN)?;
    let mut marks = Vec::with_capacity(alloc, R::LEN)?;
    for number in 0..R::LEN {
        let row = row_of(alloc, form, op, flags, number, &mut parts, sums)?;
        rows.push(row.terms)?;
        marks.push(row.marked)?;
    }
    Ok(StateRows {
        rows,
        marks,
        of: PhantomData,
    })
}
