//! Rows of whole numbers.
ghost use Rattle.std.specs.Prelude.{IfOk};
ghost use Rattle.sparse_rows.specs.WholeRows.{AreWhole, IsWholeRow};

use crate::entry::{Entry, NoMemory, Row};
use exact_frac::Frac;
use smallvec::SmallVec;
use std::alloc::Global;

/// An unknown, by its place in the order of the unknowns, with a whole number.
#[derive(Clone, Copy, Debug)]
pub struct WholeEntry {
    pub unknown: usize,
    pub number: i64,
}

/// The row of fractions for whole numbers at rising unknowns. Those that are 0 are left out.
pub fn row_of_whole(alloc: Global, entries: &[WholeEntry]) -> Result<Row, NoMemory>
    requires { AreWhole entries.now }
    ensures { IfOk result (λ r. IsWholeRow entries.now r.entries.items) }
{
    let mut taken = SmallVec::new(alloc);
    for entry in entries {
        let WholeEntry { unknown, number } = *entry;
        let value = Frac::of_whole(number);
        if !value.is_zero() {
            match taken.push(Entry { unknown, value }) {
                Ok(()) => {}
                Err(_) => return Err(NoMemory),
            }
        }
    }
    Ok(Row { entries: taken })
}
