//! The terms of entries: those of their components, weighted in place.
ghost use Rattle.std.specs.Prelude.{◌≡◌, ℕ, ◌^◌, ◌<◌, ◌≤◌, IfErr, OnErr, OnOk, length, map, pos};
ghost use Rattle.tensor_defs.specs.Lists.{Each};
ghost use Rattle.tensor_defs.specs.Number.{mul, value_of, whole};
ghost use Rattle.tensor_defs.specs.Voigt.{halved, rank_of_blocks};
ghost use Rattle.exact_frac.specs.Exact.{IsExact};
ghost use Rattle.exact_frac.specs.Held.{IsHeldAs};
ghost use Rattle.reduced_form.specs.Forms.{IsForm, free_at, row_at};
ghost use Rattle.reduced_form.specs.declared.memory.SolveFault.{SolveFault};
ghost use Rattle.voigt_table.specs.Blocks.{component_at, entry_at, entry_count, entry_of, sizes_of};
ghost use Rattle.voigt_table.specs.Weighing.{AreHeld, AreWeighed, AreWeightedTerms, TellsWeighed, WeighsTooMuch, entry_of_place};

use crate::entries::Blocks;
use crate::tables::VoigtTable;
use exact_frac::{Frac, TooLarge};
use reduced_form::{Form, SolveFault, Term};
use smallvec::SmallVec;
use tensor_defs::Weights;
use tensor_rank::Rank;

/// A small power of 2.
fn power_of_two(exponent: u8) -> Frac
    requires { exponent ≤ 2 }
    ensures { IsHeldAs (whole (pos (2 ^ exponent))) result }
{
    match exponent {
        0 => Frac::of_whole(1),
        1 => Frac::of_whole(2),
        _ => Frac::of_whole(4),
    }
}

/// A factor times 2^shift over 2^other.
fn weighted(factor: &Frac, shift: u8, other: u8) -> Result<Frac, TooLarge>
    requires shift { shift ≤ 2 }
    requires other { other ≤ 2 }
    ensures { IsExact (halved other (mul (whole (pos (2 ^ shift))) (value_of factor.now))) result }
{
    if shift == other {
        factor.in_lowest_terms();
        return Ok(*factor);
    }
    if shift > other {
        return factor.mul(&power_of_two(shift - other));
    }
    factor.div(&power_of_two(other - shift))
}

/// Weighs the terms of the entry of a number. After an error some may be weighted.
fn weigh_row(
    row: &mut [Term],
    number: usize,
    free: &[u16],
    blocks: Blocks,
    weights: Weights,
) -> Result<(), SolveFault>
    requires number { number < entry_count (sizes_of blocks) }
    requires named { Each (λ t. t.free < length free.now) row.old }
    requires components { (k : ℕ) → k < length free.now → free_at free.now k < 3 ^ rank_of_blocks (sizes_of blocks) }
    ensures ok { OnOk result (AreWeightedTerms weights (entry_of_place (sizes_of blocks) (map (entry_of blocks) free.now)) (entry_at (sizes_of blocks) number) row.old row.new) }
    ensures grows { IfErr result (λ e. e ≡ SolveFault.TooLarge → WeighsTooMuch weights (entry_of_place (sizes_of blocks) (map (entry_of blocks) free.now)) (entry_at (sizes_of blocks) number) row.old) }
{
    if row.is_empty() {
        return Ok(());
    }
    let shift = blocks.shift(number, weights);
    for place in 0..row.len() {
        let other = blocks.shift_of(free[row[place].free as usize] as usize, weights);
        match weighted(&row[place].factor, shift, other) {
            Ok(factor) => row[place].factor = factor,
            Err(TooLarge) => return Err(SolveFault::TooLarge),
        }
    }
    Ok(())
}

/// What is so of the factors of a row.
fn held_row(row: &[Term])
    ensures { AreHeld row.now }
{
    for place in 0..row.len() {
        row[place].factor.in_lowest_terms();
    }
}

/// What is so of the factors of all rows. The loops have no effect, and are no part of the program that is built.
fn held_rows(rows: &[SmallVec<Term, 2>])
    ensures { (c : ℕ) → c < length rows.now → AreHeld (row_at (map (λ row. row.items) rows.now) c) }
{
    for c in 0..rows.len() {
        held_row(rows[c].as_slice());
    }
}

/// Weighs the rows of the entries' components: with plain weights there is nothing to do. After an error some may be
/// weighted.
fn weigh_rows(
    rows: &mut Vec<SmallVec<Term, 2>>,
    free: &[u16],
    blocks: Blocks,
    weights: Weights,
) -> Result<(), SolveFault>
    requires size { length rows.old.items ≡ 3 ^ rank_of_blocks (sizes_of blocks) }
    requires named { (c : ℕ) → c < length rows.old.items → Each (λ t. t.free < length free.now) (row_at (map (λ row. row.items) rows.old.items) c) }
    requires components { (k : ℕ) → k < length free.now → free_at free.now k < 3 ^ rank_of_blocks (sizes_of blocks) }
    ensures ok { OnOk result (AreWeighed blocks weights free.now (map (λ row. row.items) rows.old.items) (map (λ row. row.items) rows.new.items) (entry_count (sizes_of blocks))) }
    ensures grows { IfErr result (λ e. e ≡ SolveFault.TooLarge → (k : ℕ) × (k < entry_count (sizes_of blocks)) × WeighsTooMuch weights (entry_of_place (sizes_of blocks) (map (entry_of blocks) free.now)) (entry_at (sizes_of blocks) k) (row_at (map (λ row. row.items) rows.old.items) (component_at blocks k))) }
{
    if let Weights::Plain = weights {
        held_rows(rows);
        return Ok(());
    }
    for number in 0..blocks.entry_count() {
        let row = rows[blocks.component(number)].as_mut_slice();
        weigh_row(row, number, free, blocks, weights)?;
    }
    Ok(())
}

/// The Voigt table of a component table in the order of blocks.
pub fn weighed_table<R: Rank>(
    form: Form<R>,
    blocks: Blocks,
    weights: Weights,
) -> Result<VoigtTable, SolveFault>
    requires { rank_of_blocks (sizes_of blocks) ≡ R.R }
    ensures told { TellsWeighed R.R weights (sizes_of blocks) form result }
    ensures whole { IsForm R.LEN form }
{
    let (free, mut rows) = form.into_parts();
    weigh_rows(&mut rows, &free, blocks, weights)?;
    Ok(VoigtTable {
        weights,
        blocks,
        free,
        rows,
    })
}
