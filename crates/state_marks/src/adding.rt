//! Sums of parts of a component in a state, one for each free component.
ghost use Rattle.std.specs.Prelude.{◌≡◌, ◌<◌, IfErr, OnErr, OnOk, IsTrue, length, map};
ghost use Rattle.tensor_defs.specs.Lists.{Each, IsRising};
ghost use Rattle.tensor_defs.specs.Number.{neg, num_one, value_of};
ghost use Rattle.tensor_defs.specs.Table.{places_rise};
ghost use Rattle.tensor_defs.specs.StateRows.{StateRowGrows};
ghost use Rattle.tensor_defs.specs.Tensor.{index_of};
ghost use Rattle.root3_num.specs.Answers.{IsExactProduct};
ghost use Rattle.root3_num.specs.Roots.{value_of_root};
ghost use Rattle.reduced_form.specs.Forms.{IsWellFormed, form_table, term_of};
ghost use Rattle.tensor_rank.specs.Flags.{marks_of};
ghost use Rattle.sign_moves.specs.Signs.{signed};
ghost use Rattle.tensor_action.specs.Acting.{AddsPart};
ghost use Rattle.tensor_action.specs.Factors.{product_number};
ghost use Rattle.state_marks.specs.Adding.{AreSummed};
ghost use Rattle.state_marks.specs.Sums.{AddsRow, AddsTerm, IsZeros, RowGrows, TermGrows};

use crate::faults::DifferFault;
use exact_frac::Frac;
use op_matrix::Op;
use reduced_form::{Form, Term};
use root3_num::{Root3, TooLarge, is_one_part};
use tensor_action::{Part, Parts};
use tensor_rank::{Comp, Flags, Rank, Sign, sign_of};

/// Whether a fraction is -1.
fn is_minus_one(number: &Frac) -> bool
    ensures { IsTrue result → value_of number.now ≡ neg num_one }
{
    is_one_part(&number.neg())
}

/// A factor times a fraction, which mostly is 1 or -1.
fn product(factor: &Root3, number: &Frac) -> Result<Root3, TooLarge>
    ensures { IsExactProduct (value_of_root factor.now) (value_of number.now) result }
{
    factor.in_lowest_terms();
    number.in_lowest_terms();
    if is_one_part(number) {
        return Ok(*factor);
    }
    if is_minus_one(number) {
        return Ok(Root3::of(factor.a.neg(), factor.b.neg()));
    }
    factor.mul(&Root3::of(*number, Frac::zero()))
}

/// The sum with the product of a factor and a fraction.
fn with_part(sum: &Root3, factor: &Root3, number: &Frac) -> Result<Root3, TooLarge>
    ensures { AddsPart (value_of_root sum.now) (value_of_root factor.now) (value_of number.now) result }
{
    let part = product(factor, number)?;
    if sum.is_zero() {
        return Ok(part);
    }
    sum.add(&part)
}

/// Adds a factor times a term to the sum of its free component.
fn add_term(sums: &mut [Root3], factor: &Root3, term: &Term) -> Result<(), TooLarge>
    requires { term.now.free < length sums.old }
    ensures ok { OnOk result (AddsTerm sums.old (value_of_root factor.now) term.now sums.new) }
    ensures grows { OnErr result (TermGrows sums.old (value_of_root factor.now) term.now) }
{
    let free = term.free as usize;
    sums[free] = with_part(&sums[free], factor, &term.factor)?;
    Ok(())
}

/// Adds a factor times each term of a row to the sum of its free component.
fn add_terms(sums: &mut [Root3], factor: &Root3, terms: &[Term]) -> Result<(), TooLarge>
    requires within { Each (λ t. t.free < length sums.old) terms.now }
    requires rising { IsRising places_rise (map term_of terms.now) }
    ensures ok { OnOk result (AddsRow sums.old (value_of_root factor.now) terms.now sums.new) }
    ensures grows { OnErr result (RowGrows sums.old (value_of_root factor.now) terms.now) }
{
    for place in 0..terms.len() {
        add_term(sums, factor, &terms[place])?;
    }
    Ok(())
}

/// Adds the factor of a part times each term of its row to the sum of its free component.
fn add_part(sums: &mut [Root3], part: &Part, sign: Sign, row: &[Term]) -> Result<(), TooLarge>
    requires positive { 0 < part.now.product.below }
    requires within { Each (λ t. t.free < length sums.old) row.now }
    requires rising { IsRising places_rise (map term_of row.now) }
    ensures ok { OnOk result (AddsRow sums.old (signed sign (product_number part.now.product)) row.now sums.new) }
    ensures grows { OnErr result (RowGrows sums.old (signed sign (product_number part.now.product)) row.now) }
{
    if row.is_empty() {
        return Ok(());
    }
    let factor = part.factor(sign);
    add_terms(sums, &factor, row)
}

/// Adds the parts of a component in a state: for each component from which it takes the coefficient times its terms.
pub fn add_parts<R: Rank>(
    op: &Op,
    flags: Flags,
    form: &Form<R>,
    to: Comp<R>,
    parts: &mut Parts<R>,
    sums: &mut [Root3],
) -> Result<(), DifferFault>
    requires formed { IsWellFormed R.R (form_table R.R form.now) }
    requires zeros { IsZeros (length form.now.free) sums.old }
    ensures ok { OnOk result (AreSummed (marks_of flags) op.now R.R (form_table R.R form.now) (index_of R.R to) sums.new) }
    ensures grows { IfErr result (λ e. e ≡ DifferFault.TooLarge → StateRowGrows (marks_of flags) op.now (form_table R.R form.now) R.R (index_of R.R to)) }
{
    let sign = sign_of(op, flags);
    parts.set(op, to);
    let parts = parts.as_slice();
    for place in 0..parts.len() {
        let part = parts[place];
        let row = form.row(Comp::at(part.number as usize));
        add_part(sums, &part, sign, row)?;
    }
    Ok(())
}
