//! The carried tensor.
ghost use Rattle.std.specs.Prelude.{◌≡◌, length, IfOk, IfErr, Ok};
ghost use Rattle.tensor_defs.specs.Tensor.{index_of};
ghost use Rattle.root3_num.specs.Roots.{value_of_root};
ghost use Rattle.tensor_rank.specs.Flags.{marks_of};
ghost use Rattle.tensor_action.specs.Acting.{ActGrows, AddsPart, CarriesTo, IsCarriedList, SumGrows, factor, tensor_of};

use crate::faults::ActFault;
use crate::parts::Parts;
use crate::products::zero;
use op_matrix::Op;
use root3_num::{Root3, TooLarge};
use std::alloc::Global;
use tensor_rank::{Comp, Flags, Rank, sign_of};

/// The sum with the product of a factor and a number.
fn with_product(sum: &Root3, factor: &Root3, number: &Root3) -> Result<Root3, TooLarge>
    ensures { AddsPart (value_of_root sum.now) (value_of_root factor.now) (value_of_root number.now) result }
{
    let part = factor.mul(number)?;
    sum.add(&part)
}

/// One component of the carried tensor.
fn component_of<R: Rank>(
    op: &Op,
    flags: Flags,
    t: &[Root3],
    to: Comp<R>,
    parts: &mut Parts<R>,
) -> Result<Root3, ActFault>
    requires { length t.now ≡ R.LEN }
    ensures ok { IfOk result (λ v. CarriesTo (marks_of flags) op.now R.R (tensor_of t.now) (index_of R.R to) (Ok v)) }
    ensures grows { IfErr result (λ e. e ≡ ActFault.TooLarge → SumGrows R.R (factor (marks_of flags) op.now (index_of R.R to)) (tensor_of t.now)) }
{
    let sign = sign_of(op, flags);
    parts.set(op, to);
    let parts = parts.as_slice();
    let mut sum = zero();
    for place in 0..parts.len() {
        let part = parts[place];
        let factor = part.factor(sign);
        let number = t[part.number as usize];
        sum = with_product(&sum, &factor, &number)?;
    }
    Ok(sum)
}

/// The tensor that an operation makes of a tensor with these marks, both by all components in index order. `TooLarge`
/// exactly where a product of a coefficient and a component, or a partial sum in index order, reaches 2^62;
/// `NoMemory` where memory is refused.
pub fn act<R: Rank>(
    alloc: Global,
    op: &Op,
    flags: Flags,
    t: &[Root3],
) -> Result<Vec<Root3>, ActFault>
    requires { length t.now ≡ R.LEN }
    ensures ok { IfOk result (λ v. IsCarriedList (marks_of flags) op.now R.R R.LEN t.now v.items) }
    ensures grows { IfErr result (λ e. e ≡ ActFault.TooLarge → ActGrows (marks_of flags) op.now R.R (tensor_of t.now)) }
{
    let mut parts = Parts::<R>::new(alloc)?;
    let mut carried = Vec::with_capacity(alloc, R::LEN)?;
    for number in 0..R::LEN {
        let component = component_of(op, flags, t, Comp::at(number), &mut parts)?;
        carried.push(component)?;
    }
    Ok(carried)
}
