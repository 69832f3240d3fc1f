//! Component tables by elimination.
ghost use Rattle.std.specs.Prelude.{◌≡◌, ℕ, ◌<◌, IfOk, IfErr, OnOk, [], List, Some, length, map, slice_index};
ghost use Rattle.tensor_defs.specs.declared.Sign.{Sign};
ghost use Rattle.tensor_defs.specs.Elimination.{AreUnknowns, GrowsFrom};
ghost use Rattle.tensor_defs.specs.Lists.{Each};
ghost use Rattle.tensor_defs.specs.Tensor.{Index};
ghost use Rattle.tensor_rank.specs.Orders.{before_at, before_of};
ghost use Rattle.constraint_rows.specs.Classes.{class_at};
ghost use Rattle.constraint_rows.specs.WordRows.{AreParts, AreSound, IsGiven, carrier_of};
ghost use Rattle.sparse_rows.specs.KeptRows.{AreGivenRows, AreRows, IsEliminated, kepts, lines};
ghost use Rattle.sparse_rows.specs.Solutions.{IsKeptWithin, IsReduced};
ghost use Rattle.reduced_form.specs.Forms.{form_table, row_at};
ghost use Rattle.reduced_form.specs.Eliminated.{AreTold, HasSystem, IsToldForm, class_row};
ghost use Rattle.reduced_form.specs.Solving.{FitsSet, IsSolution, lines_at};
ghost use Rattle.reduced_form.specs.declared.memory.SolveFault.{SolveFault};

use crate::forms::{Form, Term};
use crate::free::{free_components, places_of};
use crate::memory::{NoMemory, SolveFault};
use crate::sparse::sparse_rows_of;
use crate::told::{Told, free_numbers, row_of_unknown, tellers_of};
use constraint_rows::{Classes, Row};
use smallvec::SmallVec;
use sparse_rows::{EliminateFault, KeptRow, Row as SparseRow, pivot_sums};
use std::alloc::Global;
use std::marker::PhantomData;
use tensor_rank::{Comp, Order, Rank};

/// The terms of a component: none where its class vanishes.
fn row_of_class<R: Rank>(
    alloc: Global,
    classes: &Classes<R>,
    places: &[u16],
    told: &Told,
    c: usize,
) -> Result<SmallVec<Term, 2>, NoMemory>
    requires component { c < R.LEN }
    requires size { length places.now ≡ R.LEN }
    requires told { AreTold (length told.now.tellers.items) told.now.tellers.items told.now.numbers.items told.now.sums.items }
    requires placed { (d : ℕ) (s : Sign) → class_at classes.now c ≡ Some (d, s) → slice_index places.now d < length told.now.tellers.items }
    ensures { IfOk result (λ row. row.items ≡ class_row told.now.tellers.items told.now.numbers.items told.now.sums.items places.now (class_at classes.now c)) }
{
    match classes.of(Comp::at(c)) {
        None => Ok(SmallVec::new(alloc)),
        Some((first, sign)) => {
            let place = places[first.number() as usize] as usize;
            row_of_unknown(alloc, told, place, sign)
        }
    }
}

/// The terms of all components.
fn told_rows<R: Rank>(
    alloc: Global,
    classes: &Classes<R>,
    places: &[u16],
    told: &Told,
) -> Result<Vec<SmallVec<Term, 2>>, NoMemory>
    requires size { length places.now ≡ R.LEN }
    requires told { AreTold (length told.now.tellers.items) told.now.tellers.items told.now.numbers.items told.now.sums.items }
    requires placed { (c d : ℕ) (s : Sign) → c < R.LEN → class_at classes.now c ≡ Some (d, s) → slice_index places.now d < length told.now.tellers.items }
    ensures len { IfOk result (λ rows. length rows.items ≡ R.LEN) }
    ensures rows { IfOk result (λ rows. (c : ℕ) → c < R.LEN → row_at (map (λ row. row.items) rows.items) c ≡ class_row told.now.tellers.items told.now.numbers.items told.now.sums.items places.now (class_at classes.now c)) }
{
    let mut rows = Vec::with_capacity(alloc, R::LEN)?;
    for c in 0..R::LEN {
        rows.push_reserved(row_of_class(alloc, classes, places, told, c)?);
    }
    Ok(rows)
}

/// The table that kept rows give for the classes of components.
fn told_form<R: Rank>(
    alloc: Global,
    classes: &Classes<R>,
    unknowns: &[u16],
    places: &[u16],
    kept: &[KeptRow],
) -> Result<Form<R>, NoMemory>
    requires system { HasSystem R.LEN R.R classes.now unknowns.now places.now }
    requires rows { AreRows kept.now }
    requires reduced { IsReduced (kepts kept.now) }
    requires within { Each (IsKeptWithin (length unknowns.now)) (kepts kept.now) }
    ensures { IfOk result (IsToldForm R.LEN classes.now unknowns.now places.now (kepts kept.now)) }
{
    let tellers = tellers_of(alloc, unknowns.len(), kept)?;
    let sums = pivot_sums(alloc, kept)?;
    let numbered = free_numbers(alloc, unknowns, &tellers)?;
    let told = Told {
        tellers,
        numbers: numbered.numbers,
        sums,
    };
    let rows = told_rows(alloc, classes, places, &told)?;
    Ok(Form {
        free: numbered.free,
        rows,
        of: PhantomData,
    })
}

/// The kept rows of the elimination.
fn kept_rows(alloc: Global, rows: &[SparseRow]) -> Result<Vec<KeptRow>, SolveFault>
    requires { AreGivenRows rows.now }
    ensures eliminated { IfOk result (λ v. IsEliminated (lines rows.now) (kepts v.items)) }
    ensures rows { IfOk result (λ v. AreRows v.items) }
    ensures grows { IfErr result (λ e. e ≡ SolveFault.TooLarge → GrowsFrom [] (lines rows.now)) }
{
    match sparse_rows::eliminate(alloc, rows) {
        Ok(kept) => Ok(kept),
        Err(EliminateFault::TooLarge) => Err(SolveFault::TooLarge),
        Err(EliminateFault::NoMemory) => Err(SolveFault::NoMemory),
    }
}

/// The table of the component lists that classes and rows leave: zero where a class vanishes, else the sign times the
/// representative, and each row adds up to zero. The free components rise in the order, and each other component is
/// told by free ones that aren't later. `TooLarge` comes exactly where the elimination on these rows grows.
pub fn eliminate<R: Rank>(
    alloc: Global,
    classes: &Classes<R>,
    rows: &[Row<R>],
    order: &Order<R>,
) -> Result<Form<R>, SolveFault>
    requires sound { AreSound R.LEN (before_at R.R order.now) classes.now }
    requires rows { Each (IsGiven (before_at R.R order.now) classes.now) rows.now }
    ensures fits { IfOk result (λ f. FitsSet R.R (IsSolution R.R classes.now rows.now) (before_of order.now) (form_table R.R f)) }
    ensures parts { OnOk result (Each (AreParts R.LEN) rows.now) }
    ensures calm { IfOk result (λ _. (us : List Index) → AreUnknowns R.R (before_of order.now) (carrier_of R.R classes.now) us → GrowsFrom [] (lines_at us rows.now) → ⊥) }
    ensures grows { IfErr result (λ e. e ≡ SolveFault.TooLarge → (us : List Index) → AreUnknowns R.R (before_of order.now) (carrier_of R.R classes.now) us → GrowsFrom [] (lines_at us rows.now)) }
{
    let unknowns = free_components(alloc, classes, order)?;
    let places = places_of::<R>(alloc, &unknowns)?;
    let sparse = sparse_rows_of(alloc, rows, &places)?;
    let kept = kept_rows(alloc, &sparse)?;
    let form = told_form(alloc, classes, &unknowns, &places, &kept)?;
    Ok(form)
}
