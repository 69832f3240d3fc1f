//! The rows of components in a state: the sums that aren't 0.
ghost use Rattle.std.specs.Prelude.{◌≡◌, ◌<◌, IfOk, OnOk, IsTrue, ◌↔◌, length, map};
ghost use Rattle.tensor_defs.specs.Lists.{Each, IsRising};
ghost use Rattle.tensor_defs.specs.Table.{places_rise};
ghost use Rattle.tensor_defs.specs.Number.{num_zero, value_of};
ghost use Rattle.root3_num.specs.Roots.{value_of_root};
ghost use Rattle.reduced_form.specs.Forms.{term_of};
ghost use Rattle.state_marks.specs.Sums.{IsZeros, ListsSums, PushesSum, TellsBoth, TellsFactors, TellsSums, factor_in};

use exact_frac::Frac;
use reduced_form::Term;
use root3_num::Root3;
use std::alloc::{AllocError, Global};

/// A number a + b√3 times the free component at a place.
#[derive(Clone, Copy, Debug)]
pub struct RootTerm {
    pub free: u16,
    pub factor: Root3,
}

/// The number 0.
fn zero() -> Root3
    ensures { value_of_root result ≡ num_zero }
{
    Root3::of(Frac::zero(), Frac::zero())
}

/// As many sums as wanted, each 0.
pub fn zeros(alloc: Global, count: usize) -> Result<Vec<Root3>, AllocError>
    ensures { IfOk result (λ v. IsZeros count v.items) }
{
    let mut sums = Vec::with_capacity(alloc, count)?;
    for _place in 0..count {
        sums.push(zero())?;
    }
    Ok(sums)
}

/// Appends the sum of the free component at a place as a term, unless it is 0.
fn push_sum(terms: &mut Vec<RootTerm>, place: u16, sum: &Root3) -> Result<(), AllocError>
    ensures { OnOk result (PushesSum terms.old.items place sum.now terms.new.items) }
{
    sum.in_lowest_terms();
    if sum.is_zero() {
        return Ok(());
    }
    let factor = *sum;
    terms.push(RootTerm {
        free: place,
        factor,
    })?;
    Ok(())
}

/// The sums other than 0, by rising places.
pub fn terms_of(alloc: Global, sums: &[Root3]) -> Result<Vec<RootTerm>, AllocError>
    requires { length sums.now < 65536 }
    ensures { IfOk result (λ v. ListsSums sums.now (length sums.now) v.items) }
{
    let mut terms = Vec::new(alloc);
    for place in 0..sums.len() {
        push_sum(&mut terms, place as u16, &sums[place])?;
    }
    Ok(terms)
}

/// Sets the sums other than 0 to 0.
pub fn clear(sums: &mut [Root3], row: &[RootTerm])
    requires { ListsSums sums.old (length sums.old) row.now }
    ensures { IsZeros (length sums.old) sums.new }
{
    for place in 0..row.len() {
        sums[row[place].free as usize] = zero();
    }
}

/// Whether a number is a fraction.
fn is_fraction(number: &Root3, fraction: &Frac) -> bool
    ensures { IsTrue result ↔ (value_of_root number.now ≡ value_of fraction.now) }
{
    number.same(&Root3::of(*fraction, Frac::zero()))
}

/// Whether a number is the factor of a free component in a row of the table.
fn is_factor(number: &Root3, terms: &[Term], free: u16) -> bool
    ensures { IsTrue result ↔ (value_of_root number.now ≡ factor_in terms.now free) }
{
    for place in 0..terms.len() {
        if terms[place].free == free {
            return is_fraction(number, &terms[place].factor);
        }
    }
    number.is_zero()
}

/// Whether some sum that isn't 0 isn't the factor in a row of the table.
fn sums_differ(row: &[RootTerm], terms: &[Term]) -> bool
    ensures { TellsSums row.now terms.now result }
{
    for place in 0..row.len() {
        if !is_factor(&row[place].factor, terms, row[place].free) {
            return true;
        }
    }
    false
}

/// Whether some factor in a row of the table isn't the sum.
fn factors_differ(sums: &[Root3], terms: &[Term]) -> bool
    requires { Each (λ t. t.free < length sums.now) terms.now }
    ensures { TellsFactors sums.now terms.now result }
{
    for place in 0..terms.len() {
        if !is_fraction(&sums[terms[place].free as usize], &terms[place].factor) {
            return true;
        }
    }
    false
}

/// Whether the sums aren't the factors in a row of the table.
pub fn differs(sums: &[Root3], row: &[RootTerm], terms: &[Term]) -> bool
    requires row { ListsSums sums.now (length sums.now) row.now }
    requires within { Each (λ t. t.free < length sums.now) terms.now }
    requires rising { IsRising places_rise (map term_of terms.now) }
    ensures { TellsBoth sums.now terms.now result }
{
    if factors_differ(sums, terms) {
        return true;
    }
    sums_differ(row, terms)
}
