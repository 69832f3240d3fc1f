//! The components that tell the states of a group under a subgroup apart.
ghost use Rattle.std.specs.Prelude.{◌≡◌, ◌+◌, ◌≤◌, IfErr, IfOk, length};
ghost use Rattle.tensor_defs.specs.Elimination.{Grows};
ghost use Rattle.tensor_defs.specs.Frames.{AllOf, IsFramed, IsPlain};
ghost use Rattle.tensor_defs.specs.Jahn.{JahnSymbol};
ghost use Rattle.tensor_defs.specs.Orders.{index_before};
ghost use Rattle.tensor_defs.specs.Table.{Fits};
ghost use Rattle.magnetic_groups.specs.Sets.{In};
ghost use Rattle.tensor_rank.specs.Shapes.{IsShapeOf};
ghost use Rattle.tensor_rank.specs.Flags.{marks_of};
ghost use Rattle.reduced_form.specs.Forms.{HasUnitRows, IsWellFormed, form_table};
ghost use Rattle.state_marks.specs.Told.{AreTold, MarksGrow, SomeStateGrows, TellsMarks, mark_at, row_at, state_at};

use crate::faults::DifferFault;
use crate::rows::RootTerm;
use crate::states::{StateRows, state_rows};
use coset_states::States;
use reduced_form::{Form, solve};
use std::alloc::Global;
use std::marker::Model;
use tensor_rank::{Comp, Flags, Order, Rank, Shape};

/// The component table of the first state, and the rows of all components in each later state.
#[derive(Drop)]
pub struct Marks<R: Rank> {
    form: Form<R>,
    states: Vec<StateRows<R>>,
}

impl<R: Rank> Model for Marks<R> {
    ghost use Rattle.state_marks.specs.Told.{MarksValue};

    ghost Value = { MarksValue };

    ghost view = { λ m. record { form = m.form; states = m.states.items } };
}

impl<R: Rank> Marks<R> {
    /// The component table of the first state.
    pub fn form(&self) -> &Form<R>
        ensures { result.now ≡ self.now.form }
    {
        &self.form
    }

    /// Whether a component distinguishes a state, counted from 1, from the first.
    pub fn is_marked(&self, k: usize, c: Comp<R>) -> bool
        requires from_two { 2 ≤ k }
        requires to_count { k ≤ length self.now.states + 1 }
        ensures { result ≡ mark_at (state_at self.now k) c }
    {
        self.states[k - 2].is_marked(c)
    }

    /// The row of a component in a state, counted from 1, by rising places.
    pub fn row(&self, k: usize, c: Comp<R>) -> &[RootTerm]
        requires from_two { 2 ≤ k }
        requires to_count { k ≤ length self.now.states + 1 }
        ensures { result.now ≡ row_at (state_at self.now k) c }
    {
        self.states[k - 2].row(c)
    }
}

/// The component table of the first state, in index order. `TooLarge` exactly where the elimination grows.
pub fn first_form<R: Rank>(
    alloc: Global,
    states: &States,
    shape: &Shape<R>,
) -> Result<Form<R>, DifferFault>
    requires { IsFramed (In states.now.sub) }
    ensures fits { IfOk result (λ f. (j : JahnSymbol) → IsShapeOf j R.R shape.now → Fits j (In states.now.sub) index_before (form_table R.R f)) }
    ensures calm { IfOk result (λ _. (j : JahnSymbol) → IsShapeOf j R.R shape.now → Grows j (In states.now.sub) index_before → ⊥) }
    ensures grows { IfErr result (λ e. e ≡ DifferFault.TooLarge → (j : JahnSymbol) → IsShapeOf j R.R shape.now → Grows j (In states.now.sub) index_before) }
    ensures formed { IfOk result (λ f. IsWellFormed R.R (form_table R.R f)) }
    ensures plain { IfErr result (λ e. e ≡ DifferFault.TooLarge → ¬ AllOf (In states.now.sub) IsPlain) }
    ensures units { IfOk result (λ f. AllOf (In states.now.sub) IsPlain → HasUnitRows R.LEN f) }
{
    let form = solve(alloc, states.sub(), shape, &Order::index())?;
    Ok(form)
}

/// The rows of all components in each state from the second on.
fn later_states<R: Rank>(
    alloc: Global,
    states: &States,
    form: &Form<R>,
    flags: Flags,
) -> Result<Vec<StateRows<R>>, DifferFault>
    requires { IsWellFormed R.R (form_table R.R form.now) }
    ensures ok { IfOk result (λ v. AreTold (marks_of flags) R.R (form_table R.R form.now) states.now.reps (length states.now.reps) v.items) }
    ensures grows { IfErr result (λ e. e ≡ DifferFault.TooLarge → SomeStateGrows (marks_of flags) R.R (form_table R.R form.now) states.now.reps) }
    ensures units { IfErr result (λ e. e ≡ DifferFault.TooLarge → ¬ HasUnitRows R.LEN form.now) }
{
    let mut later = Vec::new(alloc);
    for place in 1..states.count() {
        let op = states.representative(place + 1);
        let rows = state_rows(alloc, form, &op, flags)?;
        later.push(rows)?;
    }
    Ok(later)
}

/// The components that distinguish each state from the first, and the rows of all components in it. `TooLarge` exactly
/// where the elimination for the first state or one of these rows grows, so never where the operations of the first
/// state are signed permutations; `NoMemory` where memory is refused.
pub fn differ<R: Rank>(
    alloc: Global,
    states: &States,
    shape: &Shape<R>,
) -> Result<Marks<R>, DifferFault>
    requires { IsFramed (In states.now.sub) }
    ensures ok { IfOk result (λ m. (j : JahnSymbol) → IsShapeOf j R.R shape.now → TellsMarks j (In states.now.whole) (In states.now.sub) R.R states.now.reps m) }
    ensures count { IfOk result (λ m. length m.states + 1 ≡ length states.now.reps) }
    ensures grows { IfErr result (λ e. e ≡ DifferFault.TooLarge → (j : JahnSymbol) → IsShapeOf j R.R shape.now → MarksGrow j (In states.now.whole) (In states.now.sub)) }
    ensures plain { IfErr result (λ e. e ≡ DifferFault.TooLarge → ¬ AllOf (In states.now.sub) IsPlain) }
{
    let _count = states.count();
    let form = first_form(alloc, states, shape)?;
    let later = later_states(alloc, states, &form, shape.flags())?;
    Ok(Marks {
        form,
        states: later,
    })
}
