//! A row less a multiple of another.
ghost use Rattle.std.specs.Prelude.{◌≡◌, ◌≢◌, IfOk, OnOk, IfErr, ◌++◌, [], ◌∷◌};
ghost use Rattle.tensor_defs.specs.Number.{add, mul, neg, num_zero, ReachesLimit, value_of};
ghost use Rattle.tensor_defs.specs.Elimination.{TimesGrows};
ghost use Rattle.exact_frac.specs.Held.{IsHeldAs};
ghost use Rattle.sparse_rows.specs.Rows.{coeff, DifferenceGrows, IsRow, IsDifference, IsLeft, IsNegative};

use crate::entry::{EliminateFault, Entry};
use exact_frac::Frac;
use std::alloc::Global;

/// The product.
fn times(a: &Frac, b: &Frac) -> Result<Frac, EliminateFault>
    ensures exact { IfOk result (λ f. IsHeldAs (mul (value_of a.now) (value_of b.now)) f) }
    ensures grows { IfErr result (λ _. ReachesLimit (mul (value_of a.now) (value_of b.now))) }
{
    match a.mul(b) {
        Ok(product) => Ok(product),
        Err(_) => Err(EliminateFault::TooLarge),
    }
}

/// The difference.
fn minus(a: &Frac, b: &Frac) -> Result<Frac, EliminateFault>
    ensures exact { IfOk result (λ f. IsHeldAs (add (value_of a.now) (neg (value_of b.now))) f) }
    ensures grows { IfErr result (λ _. ReachesLimit (add (value_of a.now) (neg (value_of b.now)))) }
{
    match a.sub(b) {
        Ok(difference) => Ok(difference),
        Err(_) => Err(EliminateFault::TooLarge),
    }
}

/// One more entry.
pub fn put(out: &mut Vec<Entry>, entry: Entry) -> Result<(), EliminateFault>
    ensures put { OnOk result (out.new.items ≡ out.old.items ++ entry ∷ []) }
    ensures full { IfErr result (λ e. e ≡ EliminateFault.NoMemory) }
{
    match out.push(entry) {
        Ok(()) => Ok(()),
        Err(_) => Err(EliminateFault::NoMemory),
    }
}

/// What is put where only the other row has the unknown.
fn negative(factor: &Frac, b: &Entry) -> Result<Entry, EliminateFault>
    requires factor { value_of factor.now ≢ num_zero }
    requires entry { value_of b.now.value ≢ num_zero }
    ensures entry { IfOk result (λ e. IsNegative (value_of factor.now) b.now e) }
    ensures grows { IfErr result (λ _. ReachesLimit (mul (value_of factor.now) (value_of b.now.value))) }
{
    factor.in_lowest_terms();
    let product = times(factor, &b.value)?;
    Ok(Entry {
        unknown: b.unknown,
        value: product.neg(),
    })
}

/// What is put where both rows have the unknown.
fn difference(a: &Entry, factor: &Frac, b: &Entry) -> Result<Option<Entry>, EliminateFault>
    ensures entry { IfOk result (λ o. IsLeft (value_of factor.now) a.now b.now o) }
    ensures grows { IfErr result (λ _. DifferenceGrows (value_of factor.now) a.now b.now) }
{
    let product = times(factor, &b.value)?;
    let value = minus(&a.value, &product)?;
    if value.is_zero() {
        return Ok(None);
    }
    Ok(Some(Entry {
        unknown: a.unknown,
        value,
    }))
}

/// No entries, and room for this many.
pub fn room_for(alloc: Global, count: usize) -> Result<Vec<Entry>, EliminateFault>
    ensures empty { IfOk result (λ v. v.items ≡ []) }
    ensures full { IfErr result (λ e. e ≡ EliminateFault.NoMemory) }
{
    match Vec::with_capacity(alloc, count) {
        Ok(room) => Ok(room),
        Err(_) => Err(EliminateFault::NoMemory),
    }
}

/// The row minus the factor times the other row, in place of what a list held.
pub fn subtract(
    out: &mut Vec<Entry>,
    row: &[Entry],
    factor: &Frac,
    other: &[Entry],
) -> Result<(), EliminateFault>
    requires row { IsRow row.now }
    requires other { IsRow other.now }
    requires factor { value_of factor.now ≢ num_zero }
    ensures difference { OnOk result (IsDifference (coeff row.now) (value_of factor.now) (coeff other.now) out.new.items) }
    ensures grows { IfErr result (λ e. e ≡ EliminateFault.TooLarge → TimesGrows (coeff row.now) (value_of factor.now) (coeff other.now)) }
{
    out.clear();
    let mut i = 0;
    let mut j = 0;
    while i < row.len() || j < other.len() {
        if j == other.len() {
            put(out, row[i])?;
            i += 1;
        } else if i == row.len() {
            put(out, negative(factor, &other[j])?)?;
            j += 1;
        } else {
            let a = row[i];
            let b = other[j];
            if a.unknown < b.unknown {
                put(out, a)?;
                i += 1;
            } else if b.unknown < a.unknown {
                put(out, negative(factor, &b)?)?;
                j += 1;
            } else {
                if let Some(entry) = difference(&a, factor, &b)? {
                    put(out, entry)?;
                }
                i += 1;
                j += 1;
            }
        }
    }
    Ok(())
}
