//! The table of a group and a symbol, by its classes or by the elimination of rows.
ghost use Rattle.std.specs.Prelude.{◌≡◌, ℕ, ◌<◌, IfErr, IfOk};
ghost use Rattle.tensor_defs.specs.Elimination.{Grows};
ghost use Rattle.tensor_defs.specs.Frames.{AllOf, IsFramed, IsPlain};
ghost use Rattle.tensor_defs.specs.Jahn.{JahnSymbol};
ghost use Rattle.tensor_defs.specs.Table.{Fits};
ghost use Rattle.magnetic_groups.specs.Sets.{In};
ghost use Rattle.sign_moves.specs.Firsts.{AreSettled};
ghost use Rattle.tensor_rank.specs.Orders.{before_at, before_of};
ghost use Rattle.tensor_rank.specs.Shapes.{IsShapeOf};
ghost use Rattle.reduced_form.specs.Forms.{HasUnitRows, HasUnits, IsFormOf, IsWellFormed, form_table};
ghost use Rattle.reduced_form.specs.declared.memory.SolveFault.{SolveFault};

use crate::eliminating::eliminate;
use crate::forms::Form;
use crate::free::{free_components, places_of};
use crate::memory::{NoMemory, SolveFault};
use crate::rows::rows_of;
use axis_laws::{one_elimination, rows_decide_invariance};
use constraint_rows::{Classes, axis_classes, plain_classes, rows_of_words};
use magnetic_groups::Group;
use std::alloc::Global;
use std::marker::PhantomData;
use tensor_rank::{Order, Rank, Shape};

/// The table that classes give.
fn form_of_classes<R: Rank>(
    alloc: Global,
    classes: &Classes<R>,
    order: &Order<R>,
) -> Result<Form<R>, NoMemory>
    requires { AreSettled R.LEN classes.now }
    ensures { IfOk result (IsFormOf R.LEN (before_at R.R order.now) classes.now) }
{
    let free = free_components(alloc, classes, order)?;
    let places = places_of::<R>(alloc, &free)?;
    let rows = rows_of(alloc, classes, &places)?;
    Ok(Form {
        free,
        rows,
        of: PhantomData,
    })
}

/// The table of a group of plain operations.
fn plain_form<R: Rank>(
    alloc: Global,
    group: &Group,
    shape: &Shape<R>,
    order: &Order<R>,
) -> Result<Form<R>, NoMemory>
    requires { AllOf (In group.now) IsPlain }
    ensures fits { IfOk result (λ f. (j : JahnSymbol) → IsShapeOf j R.R shape.now → Fits j (In group.now) (before_of order.now) (form_table R.R f)) }
    ensures formed { IfOk result (λ f. IsWellFormed R.R (form_table R.R f)) }
    ensures units { IfOk result (HasUnitRows R.LEN) }
    ensures factors { IfOk result (HasUnits R.LEN) }
{
    let classes = plain_classes(alloc, group, shape, order)?;
    form_of_classes(alloc, &classes, order)
}

/// The table of a framed group that isn't all plain.
fn axis_form<R: Rank>(
    alloc: Global,
    group: &Group,
    shape: &Shape<R>,
    order: &Order<R>,
) -> Result<Form<R>, SolveFault>
    requires framed { IsFramed (In group.now) }
    requires other { ¬ AllOf (In group.now) IsPlain }
    ensures fits { IfOk result (λ f. (j : JahnSymbol) → IsShapeOf j R.R shape.now → Fits j (In group.now) (before_of order.now) (form_table R.R f)) }
    ensures calm { IfOk result (λ _. (j : JahnSymbol) → IsShapeOf j R.R shape.now → Grows j (In group.now) (before_of order.now) → ⊥) }
    ensures grows { IfErr result (λ e. e ≡ SolveFault.TooLarge → (j : JahnSymbol) → IsShapeOf j R.R shape.now → Grows j (In group.now) (before_of order.now)) }
    ensures formed { IfOk result (λ f. IsWellFormed R.R (form_table R.R f)) }
{
    rows_decide_invariance();
    one_elimination();
    // what the length tells of the group is for the proof
    let _elements = group.len();
    let classes = axis_classes(alloc, group, shape, order)?;
    let rows = rows_of_words(alloc, &classes, order)?;
    let form = eliminate(alloc, &classes, &rows, order)?;
    Ok(form)
}

/// The component table of the tensors of a symbol that a framed group leaves unchanged: its free components rise in the
/// order, and each other component is told by free ones that aren't later. `TooLarge` comes exactly where the group
/// isn't all plain and the elimination on the rows of its words grows. Under a group that is all plain each factor is 1
/// or -1.
pub fn solve<R: Rank>(
    alloc: Global,
    group: &Group,
    shape: &Shape<R>,
    order: &Order<R>,
) -> Result<Form<R>, SolveFault>
    requires { IsFramed (In group.now) }
    ensures factors { IfOk result (λ f. AllOf (In group.now) IsPlain → HasUnits R.LEN f) }
    ensures fits { IfOk result (λ f. (j : JahnSymbol) → IsShapeOf j R.R shape.now → Fits j (In group.now) (before_of order.now) (form_table R.R f)) }
    ensures calm { IfOk result (λ _. (j : JahnSymbol) → IsShapeOf j R.R shape.now → Grows j (In group.now) (before_of order.now) → ⊥) }
    ensures grows { IfErr result (λ e. e ≡ SolveFault.TooLarge → (j : JahnSymbol) → IsShapeOf j R.R shape.now → Grows j (In group.now) (before_of order.now)) }
    ensures formed { IfOk result (λ f. IsWellFormed R.R (form_table R.R f)) }
    ensures plain { IfErr result (λ e. e ≡ SolveFault.TooLarge → ¬ AllOf (In group.now) IsPlain) }
    ensures units { IfOk result (λ f. AllOf (In group.now) IsPlain → HasUnitRows R.LEN f) }
{
    if group.is_all_plain() {
        let form = plain_form(alloc, group, shape, order)?;
        return Ok(form);
    }
    axis_form(alloc, group, shape, order)
}
