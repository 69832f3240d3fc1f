//! Marks of the unknowns that a row may have, by their remainders.
ghost use Rattle.std.specs.Prelude.{◌≡◌, false, length};
ghost use Rattle.sparse_rows.specs.Rows.{IsRow};
ghost use Rattle.sparse_rows.specs.Marks.{AreMarked, IsAway, is_marked};

use crate::entry::Entry;

/// Marks each unknown of a row.
pub fn mark_all(marks: &mut [bool], row: &[Entry])
    requires { length marks.old ≡ 512 }
    ensures { AreMarked marks.old row.now marks.new }
{
    for entry in row {
        marks[entry.unknown % 512] = true;
    }
}

/// Whether an unknown is marked, or one with the same remainder.
pub fn is_marked(marks: &[bool], unknown: usize) -> bool
    requires { length marks.now ≡ 512 }
    ensures { result ≡ is_marked marks.now unknown }
{
    marks[unknown % 512]
}

/// Whether an unknown of a row is marked, or one with the same remainder.
pub fn meets(marks: &[bool], row: &[Entry]) -> bool
    requires { length marks.now ≡ 512 }
    ensures { result ≡ false → IsAway marks.now row.now }
{
    for entry in row {
        if is_marked(marks, entry.unknown) {
            return true;
        }
    }
    false
}
