//! The solutions that kept rows tell.
ghost use Rattle.std.specs.Prelude.{IfOk};
ghost use Rattle.sparse_rows.specs.Rows.{IsRow};
ghost use Rattle.sparse_rows.specs.Solutions.{IsLeading, IsReduced};
ghost use Rattle.sparse_rows.specs.KeptRows.{kept_of, kepts, AreRows};
ghost use Rattle.sparse_rows.specs.Sums.{IsNegated, IsPivotSum, AreSolved};

use crate::entry::{Entry, KeptRow, NoMemory, PivotSum};
use std::alloc::Global;

/// Each fraction with the other sign.
fn negated(alloc: Global, entries: &[Entry]) -> Result<Vec<Entry>, NoMemory>
    requires { IsRow entries.now }
    ensures { IfOk result (λ v. IsNegated entries.now v.items) }
{
    let Ok(mut out) = Vec::with_capacity(alloc, entries.len()) else {
        return Err(NoMemory);
    };
    for entry in entries {
        let value = entry.value.neg();
        match out.push(Entry {
            unknown: entry.unknown,
            value,
        }) {
            Ok(()) => {}
            Err(_) => return Err(NoMemory),
        }
    }
    Ok(out)
}

/// What a pivot is in each solution: the sum of the other unknowns of its row, each with its fraction's negative.
fn pivot_sum(alloc: Global, row: &KeptRow) -> Result<Vec<Entry>, NoMemory>
    requires row { IsRow row.now.entries.items }
    requires leading { IsLeading (kept_of row.now) }
    ensures { IfOk result (λ v. IsPivotSum (kept_of row.now) v.items) }
{
    let last = row.entries.len() - 1;
    negated(alloc, &row.entries[..last])
}

/// What the pivots of reduced rows are in each solution, in the order of the rows: sums of unknowns that are free.
pub fn pivot_sums(alloc: Global, kept: &[KeptRow]) -> Result<Vec<PivotSum>, NoMemory>
    requires rows { AreRows kept.now }
    requires reduced { IsReduced (kepts kept.now) }
    ensures { IfOk result (λ v. AreSolved (kepts kept.now) (kepts kept.now) v.items) }
{
    let Ok(mut sums) = Vec::with_capacity(alloc, kept.len()) else {
        return Err(NoMemory);
    };
    for row in kept {
        let terms = pivot_sum(alloc, row)?;
        match sums.push(PivotSum {
            pivot: row.pivot,
            terms,
        }) {
            Ok(()) => {}
            Err(_) => return Err(NoMemory),
        }
    }
    Ok(sums)
}
