//! The elimination.
ghost use Rattle.std.specs.Prelude.{◌≡◌, ◌<◌, IfOk, IfErr, [], length};
ghost use Rattle.tensor_defs.specs.Elimination.{GrowsFrom};
ghost use Rattle.sparse_rows.specs.Marks.{AreSeen};
ghost use Rattle.sparse_rows.specs.Rows.{coeff, IsRow};
ghost use Rattle.sparse_rows.specs.KeptRows.{kepts, AreRows, AreGivenRows, lines, IsEliminated, IsKeptRow, CannotKeep};

use crate::entry::{EliminateFault, Entry, KeptRow, Row};
use crate::marks::mark_all;
use crate::steps::{clear_all, put_row, reduce_row, scale};
use std::alloc::Global;

/// The kept rows with one more, made of a row that isn't 0.
fn keep(
    alloc: Global,
    kept: Vec<KeptRow>,
    left: &[Entry],
    spare: &mut Vec<Entry>,
    seen: &[bool],
) -> Result<Vec<KeptRow>, EliminateFault>
    requires kept { AreRows kept.items }
    requires row { IsRow left.now }
    requires some { 0 < length left.now }
    requires seen { AreSeen seen.now (kepts kept.items) }
    ensures kept { IfOk result (λ v. IsKeptRow (kepts kept.items) (coeff left.now) v.items) }
    ensures grows { IfErr result (λ e. e ≡ EliminateFault.TooLarge → CannotKeep (kepts kept.items) (coeff left.now)) }
{
    let new = scale(alloc, left)?;
    let mut next = kept;
    clear_all(spare, &mut next, &new, seen)?;
    put_row(&mut next, new)?;
    Ok(next)
}

/// The kept rows of Gauss and Jordan's elimination, which takes the rows in order, each with its last unknown as the pivot.
/// They have the same solutions, and each pivot has 1 in its own row, nothing after it there, and 0 in the other rows.
/// `TooLarge` comes exactly where a product, a difference or a quotient reaches the limit of fractions.
pub fn eliminate(alloc: Global, rows: &[Row]) -> Result<Vec<KeptRow>, EliminateFault>
    requires { AreGivenRows rows.now }
    ensures eliminated { IfOk result (λ v. IsEliminated (lines rows.now) (kepts v.items)) }
    ensures rows { IfOk result (λ v. AreRows v.items) }
    ensures grows { IfErr result (λ e. e ≡ EliminateFault.TooLarge → GrowsFrom [] (lines rows.now)) }
{
    let Ok(mut kept) = Vec::with_capacity(alloc, rows.len()) else {
        return Err(EliminateFault::NoMemory);
    };
    let mut left = Vec::new(alloc);
    let mut spare = Vec::new(alloc);
    let mut seen = [false; 512];
    for row in rows {
        reduce_row(&mut left, &mut spare, &row.entries, &kept, &seen)?;
        if left.len() > 0 {
            kept = keep(alloc, kept, &left, &mut spare, &seen)?;
            mark_all(&mut seen, &row.entries);
        }
    }
    Ok(kept)
}
