//! What the kept rows of an elimination tell of the unknowns.
ghost use Rattle.std.specs.Prelude.{◌≡◌, ℕ, ◌<◌, ◌≤◌, IfOk, None, length, map};
ghost use Rattle.tensor_defs.specs.Lists.{Each};
ghost use Rattle.sparse_rows.specs.KeptRows.{kepts};
ghost use Rattle.reduced_form.specs.Forms.{free_at};
ghost use Rattle.reduced_form.specs.Eliminated.{ArePivots, AreNumbers, AreTold, entry_term, free_places, pivot_at, signed_fraction, teller, terms_told};

use crate::forms::Term;
use crate::memory::NoMemory;
use crate::rows::unit_of;
use exact_frac::Frac;
use smallvec::SmallVec;
use sparse_rows::{Entry, KeptRow, PivotSum};
use std::alloc::Global;
use tensor_rank::Sign;

/// For each unknown the kept row whose pivot it is, the number of free unknowns before it, and the sums of the pivots.
#[derive(Drop)]
pub struct Told {
    pub tellers: Vec<Option<usize>>,
    pub numbers: Vec<u16>,
    pub sums: Vec<PivotSum>,
}

/// The free components, in their order, and for each unknown how many of them come before it.
#[derive(Drop)]
pub struct Numbered {
    pub free: Vec<u16>,
    pub numbers: Vec<u16>,
}

/// No kept row for any unknown.
fn no_tellers(alloc: Global, unknowns: usize) -> Result<Vec<Option<usize>>, NoMemory>
    ensures len { IfOk result (λ v. length v.items ≡ unknowns) }
    ensures none { IfOk result (λ v. (k : ℕ) → teller v.items k ≡ None) }
{
    let mut tellers = Vec::with_capacity(alloc, unknowns)?;
    for _ in 0..unknowns {
        tellers.push_reserved(None);
    }
    Ok(tellers)
}

/// For each unknown the kept row whose pivot it is.
pub fn tellers_of(
    alloc: Global,
    unknowns: usize,
    kept: &[KeptRow],
) -> Result<Vec<Option<usize>>, NoMemory>
    requires { (i : ℕ) → i < length kept.now → pivot_at (kepts kept.now) i < unknowns }
    ensures { IfOk result (λ v. ArePivots unknowns (kepts kept.now) v.items (length kept.now)) }
{
    let mut tellers = no_tellers(alloc, unknowns)?;
    for place in 0..kept.len() {
        tellers[kept[place].pivot] = Some(place);
    }
    Ok(tellers)
}

/// The components of the unknowns that are no row's pivot, and their numbers.
pub fn free_numbers(
    alloc: Global,
    unknowns: &[u16],
    tellers: &[Option<usize>],
) -> Result<Numbered, NoMemory>
    requires len { length tellers.now ≡ length unknowns.now }
    requires few { length unknowns.now ≤ 729 }
    ensures free { IfOk result (λ v. v.free.items ≡ map (free_at unknowns.now) (free_places tellers.now (length unknowns.now))) }
    ensures numbers { IfOk result (λ v. AreNumbers tellers.now (length unknowns.now) v.numbers.items) }
{
    let mut free = Vec::with_capacity(alloc, unknowns.len())?;
    let mut numbers = Vec::with_capacity(alloc, unknowns.len())?;
    for place in 0..unknowns.len() {
        numbers.push_reserved(free.len() as u16);
        if tellers[place].is_none() {
            free.push(unknowns[place])?;
        }
    }
    Ok(Numbered { free, numbers })
}

/// A fraction with a sign.
fn with_sign(sign: Sign, value: &Frac) -> Frac
    ensures { result ≡ signed_fraction sign value.now }
{
    match sign {
        Sign::Plus => *value,
        Sign::Minus => value.neg(),
    }
}

/// The terms of a sum of free unknowns, with a sign.
fn terms_of(
    alloc: Global,
    sum: &[Entry],
    numbers: &[u16],
    sign: Sign,
) -> Result<SmallVec<Term, 2>, NoMemory>
    requires { Each (λ e. e.unknown < length numbers.now) sum.now }
    ensures { IfOk result (λ row. row.items ≡ map (entry_term numbers.now sign) sum.now) }
{
    let mut row = SmallVec::new(alloc);
    for entry in sum {
        row.push(Term {
            free: numbers[entry.unknown],
            factor: with_sign(sign, &entry.value),
        })?;
    }
    Ok(row)
}

/// The terms of an unknown, with a sign.
pub fn row_of_unknown(
    alloc: Global,
    told: &Told,
    place: usize,
    sign: Sign,
) -> Result<SmallVec<Term, 2>, NoMemory>
    requires told { AreTold (length told.now.tellers.items) told.now.tellers.items told.now.numbers.items told.now.sums.items }
    requires unknown { place < length told.now.tellers.items }
    ensures { IfOk result (λ row. row.items ≡ terms_told told.now.tellers.items told.now.numbers.items told.now.sums.items place sign) }
{
    match told.tellers[place] {
        None => {
            let mut row = SmallVec::new(alloc);
            row.push_reserved(Term {
                free: told.numbers[place],
                factor: unit_of(sign),
            });
            Ok(row)
        }
        Some(teller) => terms_of(alloc, &told.sums[teller].terms, &told.numbers, sign),
    }
}
