//! The rows of a table that classes give.
ghost use Rattle.std.specs.Prelude.{◌≡◌, ℕ, ◌<◌, IfOk, length, map};
ghost use Rattle.sign_moves.specs.Classes.{entry_at};
ghost use Rattle.sign_moves.specs.Firsts.{AreSettled};
ghost use Rattle.reduced_form.specs.Forms.{row_at, row_of, unit_fraction};

use crate::forms::Term;
use crate::memory::NoMemory;
use constraint_rows::Classes;
use exact_frac::Frac;
use smallvec::SmallVec;
use std::alloc::Global;
use tensor_rank::{Comp, Rank, Sign};

/// 1 or -1.
pub(crate) fn unit_of(sign: Sign) -> Frac
    ensures { result ≡ unit_fraction sign }
{
    match sign {
        Sign::Plus => Frac::one(),
        Sign::Minus => Frac::of_whole(-1),
    }
}

/// The row of a component.
fn row_of<R: Rank>(
    alloc: Global,
    classes: &Classes<R>,
    places: &[u16],
    c: usize,
) -> SmallVec<Term, 2>
    requires component { c < R.LEN }
    requires size { length places.now ≡ R.LEN }
    ensures { result.items ≡ row_of (entry_at classes.now c) places.now }
{
    let mut row = SmallVec::new(alloc);
    if let Some((first, sign)) = classes.of(Comp::at(c)) {
        row.push_reserved(Term {
            free: places[first.number() as usize],
            factor: unit_of(sign),
        });
    }
    row
}

/// The rows of all components.
pub fn rows_of<R: Rank>(
    alloc: Global,
    classes: &Classes<R>,
    places: &[u16],
) -> Result<Vec<SmallVec<Term, 2>>, NoMemory>
    requires size { length places.now ≡ R.LEN }
    ensures len { IfOk result (λ rows. length rows.items ≡ R.LEN) }
    ensures rows { IfOk result (λ rows. (c : ℕ) → c < R.LEN → row_at (map (λ row. row.items) rows.items) c ≡ row_of (entry_at classes.now c) places.now) }
{
    let mut rows = Vec::with_capacity(alloc, R::LEN)?;
    for c in 0..R::LEN {
        rows.push_reserved(row_of(alloc, classes, places, c));
    }
    Ok(rows)
}
