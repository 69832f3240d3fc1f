//! The factor of a component in a component of the carried tensor.
ghost use Rattle.std.specs.Prelude.{◌≡◌, ◌<◌};
ghost use Rattle.tensor_defs.specs.Number.{mul};
ghost use Rattle.tensor_defs.specs.Operation.{value};
ghost use Rattle.tensor_defs.specs.Tensor.{coefficient, index_of, sign};
ghost use Rattle.root3_num.specs.Roots.{value_of_root};
ghost use Rattle.tensor_rank.specs.Flags.{marks_of};
ghost use Rattle.tensor_rank.specs.IndexLaws.{nth};
ghost use Rattle.tensor_action.specs.Factors.{entry_number, product_number};

use crate::products::{Product, number_of, one, with_entry};
use op_matrix::{Entry, Op};
use root3_num::Root3;
use tensor_rank::{Comp, Flags, Rank, sign_of};

/// The entry at the indices that two components have at a place.
fn entry_between<R: Rank>(op: &Op, to: Comp<R>, from: Comp<R>, place: usize) -> Entry
    requires { place < R.R }
    ensures { entry_number result ≡ value op.now (nth (index_of R.R to) place) (nth (index_of R.R from) place) }
{
    let row = to.digit(place) as usize - 1;
    let col = from.digit(place) as usize - 1;
    op.entry(row, col)
}

/// The product of the entries at the indices of two components.
fn product_between<R: Rank>(op: &Op, to: Comp<R>, from: Comp<R>) -> Product
    ensures value { product_number result ≡ coefficient op.now (index_of R.R to) (index_of R.R from) }
    ensures positive { 0 < result.below }
{
    let mut product = one();
    for place in 0..R::R {
        product = with_entry(product, entry_between(op, to, from, place));
    }
    product
}

/// The factor of the component `from` in the component `to` of the carried tensor, with the sign.
pub fn coefficient<R: Rank>(op: &Op, flags: Flags, to: Comp<R>, from: Comp<R>) -> Root3
    ensures { value_of_root result ≡ mul (sign (marks_of flags) op.now) (coefficient op.now (index_of R.R to) (index_of R.R from)) }
{
    number_of(product_between(op, to, from), sign_of(op, flags))
}
