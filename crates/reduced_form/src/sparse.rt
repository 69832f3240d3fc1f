//! The rows of an elimination, by the places of their unknowns.
ghost use Rattle.std.specs.Prelude.{◌≡◌, ◌<◌, IfOk, length};
ghost use Rattle.tensor_defs.specs.Lists.{Each};
ghost use Rattle.reduced_form.specs.Eliminated.{AreSparse, CanPlace, IsSparse};

use crate::memory::NoMemory;
use constraint_rows::Row;
use sparse_rows::{Row as SparseRow, WholeEntry, row_of_whole};
use std::alloc::Global;
use tensor_rank::Rank;

/// A row of whole numbers as one of fractions, by the places of its components among the unknowns. The entries are
/// gathered in place of those that a list held.
fn sparse_row<R: Rank>(
    alloc: Global,
    row: &Row<R>,
    places: &[u16],
    entries: &mut Vec<WholeEntry>,
) -> Result<SparseRow, NoMemory>
    requires size { length places.now ≡ R.LEN }
    requires whole { CanPlace R.LEN places.now row.now }
    ensures { IfOk result (IsSparse R.LEN places.now row.now) }
{
    entries.clear();
    for place in 0..row.parts().len() {
        let (component, number) = row.at(place);
        entries.push(WholeEntry {
            unknown: places[component.number() as usize] as usize,
            number,
        })?;
    }
    let sparse = row_of_whole(alloc, entries)?;
    Ok(sparse)
}

/// All rows as rows of fractions.
pub fn sparse_rows_of<R: Rank>(
    alloc: Global,
    rows: &[Row<R>],
    places: &[u16],
) -> Result<Vec<SparseRow>, NoMemory>
    requires size { length places.now ≡ R.LEN }
    requires whole { Each (CanPlace R.LEN places.now) rows.now }
    ensures { IfOk result (λ v. AreSparse R.LEN places.now rows.now v.items) }
{
    let mut sparse = Vec::with_capacity(alloc, rows.len())?;
    let mut entries = Vec::new(alloc);
    for row in rows {
        sparse.push(sparse_row(alloc, row, places, &mut entries)?)?;
    }
    Ok(sparse)
}
