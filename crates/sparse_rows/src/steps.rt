//! The steps of the elimination.
ghost use Rattle.std.specs.Prelude.{◌≡◌, ◌≢◌, ◌<◌, IfOk, OnOk, IfErr, IsTrue, ◌++◌, [], ◌∷◌, length};
ghost use Rattle.tensor_defs.specs.Number.{mul, num_zero, ReachesLimit, value_of};
ghost use Rattle.tensor_defs.specs.Elimination.{ReducingGrows, ClearingGrows, LessGrows};
ghost use Rattle.exact_frac.specs.Held.{inverse_of, IsHeldAs};
ghost use Rattle.tensor_defs.specs.Lists.{Each};
ghost use Rattle.sparse_rows.specs.Marks.{AreSeen};
ghost use Rattle.sparse_rows.specs.Rows.{coeff, IsRow};
ghost use Rattle.sparse_rows.specs.Solutions.{IsLeading};
ghost use Rattle.sparse_rows.specs.KeptRows.{kept_of, kepts, AreRows, IsFound, IsReducedRow, IsScaledRow, CannotScale, IsClearedRow, AreCleared};

use crate::entry::{EliminateFault, Entry, KeptRow};
use crate::marks::{is_marked, mark_all, meets};
use crate::merge::{put, room_for, subtract};
use exact_frac::Frac;
use std::alloc::Global;
use std::mem::swap;

/// Whether a row is 0 at an unknown, as its first and its last unknown tell.
fn is_outside(row: &[Entry], at: usize) -> bool
    requires { IsRow row.now }
    ensures { IsTrue result → coeff row.now at ≡ num_zero }
{
    let count = row.len();
    if count == 0 {
        return true;
    }
    if at < row[0].unknown {
        return true;
    }
    row[count - 1].unknown < at
}

/// The fraction at an unknown: none outside the row, else by halves.
pub fn find(row: &[Entry], at: usize) -> Option<Frac>
    requires { IsRow row.now }
    ensures { IsFound (coeff row.now at) result }
{
    if is_outside(row, at) {
        return None;
    }
    let mut low = 0;
    let mut high = row.len();
    while low < high {
        let middle = low + (high - low) / 2;
        let entry = &row[middle];
        if entry.unknown == at {
            return Some(entry.value);
        }
        if entry.unknown < at {
            low = middle + 1;
        } else {
            high = middle;
        }
    }
    None
}

/// A copy in place of what a list held.
pub fn copy_to(out: &mut Vec<Entry>, row: &[Entry]) -> Result<(), EliminateFault>
    ensures copied { OnOk result (out.new.items ≡ row.now) }
    ensures full { IfErr result (λ e. e ≡ EliminateFault.NoMemory) }
{
    out.clear();
    match out.extend_from_slice(row) {
        Ok(()) => Ok(()),
        Err(_) => Err(EliminateFault::NoMemory),
    }
}

/// The row, less what each kept row takes away, in place of what a list held. Only those are looked at whose pivot the
/// row may have, and none where the row has no unknown of kept rows.
pub fn reduce_row(
    left: &mut Vec<Entry>,
    spare: &mut Vec<Entry>,
    row: &[Entry],
    kept: &[KeptRow],
    seen: &[bool],
) -> Result<(), EliminateFault>
    requires row { IsRow row.now }
    requires kept { AreRows kept.now }
    requires leading { Each IsLeading (kepts kept.now) }
    requires seen { AreSeen seen.now (kepts kept.now) }
    ensures reduced { OnOk result (IsReducedRow (kepts kept.now) (coeff row.now) left.new.items) }
    ensures grows { IfErr result (λ e. e ≡ EliminateFault.TooLarge → ReducingGrows (kepts kept.now) (coeff row.now)) }
{
    copy_to(left, row)?;
    if !meets(seen, row) {
        return Ok(());
    }
    let mut marks = [false; 512];
    mark_all(&mut marks, row);
    for k in kept {
        if is_marked(&marks, k.pivot) {
            if let Some(factor) = find(left, k.pivot) {
                subtract(spare, left, &factor, &k.entries)?;
                swap(left, spare);
                mark_all(&mut marks, &k.entries);
            }
        }
    }
    Ok(())
}

/// The quotient.
fn quotient(a: &Frac, b: &Frac) -> Result<Frac, EliminateFault>
    requires { value_of b.now ≢ num_zero }
    ensures exact { IfOk result (λ f. IsHeldAs (mul (value_of a.now) (inverse_of b.now)) f) }
    ensures grows { IfErr result (λ _. ReachesLimit (mul (value_of a.now) (inverse_of b.now))) }
{
    match a.div(b) {
        Ok(quotient) => Ok(quotient),
        Err(_) => Err(EliminateFault::TooLarge),
    }
}

/// The row divided by its last fraction.
pub fn scale(alloc: Global, row: &[Entry]) -> Result<KeptRow, EliminateFault>
    requires row { IsRow row.now }
    requires some { 0 < length row.now }
    ensures scaled { IfOk result (λ k. IsScaledRow (coeff row.now) k) }
    ensures grows { IfErr result (λ e. e ≡ EliminateFault.TooLarge → CannotScale (coeff row.now)) }
{
    let last = row[row.len() - 1];
    let mut entries = room_for(alloc, row.len())?;
    for entry in row {
        let value = quotient(&entry.value, &last.value)?;
        put(
            &mut entries,
            Entry {
                unknown: entry.unknown,
                value,
            },
        )?;
    }
    Ok(KeptRow {
        pivot: last.unknown,
        entries,
    })
}

/// A kept row, less what the new row takes away.
fn clear_one(spare: &mut Vec<Entry>, row: &mut KeptRow, new: &KeptRow) -> Result<(), EliminateFault>
    requires row { IsRow row.old.entries.items }
    requires new { IsRow new.now.entries.items }
    ensures cleared { OnOk result (IsClearedRow (kept_of new.now) (kept_of row.old) row.new) }
    ensures grows { IfErr result (λ e. e ≡ EliminateFault.TooLarge → LessGrows (coeff row.old.entries.items) (kept_of new.now)) }
{
    if let Some(factor) = find(&row.entries, new.pivot) {
        subtract(spare, &row.entries, &factor, &new.entries)?;
        swap(&mut row.entries, spare);
    }
    Ok(())
}

/// One more kept row.
pub fn put_row(out: &mut Vec<KeptRow>, row: KeptRow) -> Result<(), EliminateFault>
    ensures put { OnOk result (out.new.items ≡ out.old.items ++ row ∷ []) }
    ensures full { IfErr result (λ e. e ≡ EliminateFault.NoMemory) }
{
    match out.push(row) {
        Ok(()) => Ok(()),
        Err(_) => Err(EliminateFault::NoMemory),
    }
}

/// All kept rows, less what the new row takes away: nothing where none has its pivot. After an error some may be changed.
pub fn clear_all(
    spare: &mut Vec<Entry>,
    kept: &mut Vec<KeptRow>,
    new: &KeptRow,
    seen: &[bool],
) -> Result<(), EliminateFault>
    requires kept { AreRows kept.old.items }
    requires seen { AreSeen seen.now (kepts kept.old.items) }
    requires new { IsRow new.now.entries.items }
    ensures cleared { OnOk result (AreCleared (kept_of new.now) (kepts kept.old.items) kept.new.items) }
    ensures grows { IfErr result (λ e. e ≡ EliminateFault.TooLarge → ClearingGrows (kept_of new.now) (kepts kept.old.items)) }
{
    if !is_marked(seen, new.pivot) {
        return Ok(());
    }
    for place in 0..kept.len() {
        let row = &mut kept[place];
        clear_one(spare, row, new)?;
    }
    Ok(())
}
