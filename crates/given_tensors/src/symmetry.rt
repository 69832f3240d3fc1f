//! The index symmetry of a given tensor.
ghost use Rattle.std.specs.Prelude.{◌≡◌, length, IfErr, IfOk, MatchBool, MatchOption};
ghost use Rattle.tensor_defs.specs.Jahn.{JahnSymbol, HasSymmetry};
ghost use Rattle.tensor_defs.specs.Tensor.{index_of};
ghost use Rattle.root3_num.specs.Roots.{value_of_root};
ghost use Rattle.sign_moves.specs.Signs.{signed};
ghost use Rattle.tensor_rank.specs.Orders.{ByIndex};
ghost use Rattle.tensor_rank.specs.Shapes.{IsShapeOf};
ghost use Rattle.tensor_action.specs.Acting.{tensor_of};
ghost use Rattle.given_tensors.specs.Verdicts.{Breaks, Follows, IsFirstBroken};

use root3_num::Root3;
use std::alloc::Global;
use tensor_action::ActFault;
use tensor_rank::{Comp, Order, Rank, Shape, ShapeClasses, Sign};

/// The number with a sign.
pub(crate) fn signed(sign: Sign, number: &Root3) -> Root3
    ensures { value_of_root result ≡ signed sign (value_of_root number.now) }
{
    match sign {
        Sign::Plus => *number,
        Sign::Minus => number.neg(),
    }
}

/// The component of a tensor.
pub(crate) fn component<R: Rank>(t: &[Root3], c: Comp<R>) -> Root3
    requires { length t.now ≡ R.LEN }
    ensures { value_of_root result ≡ tensor_of t.now (index_of R.R c) }
{
    t[c.number() as usize]
}

/// Whether the tensor is at a component what its index symmetry tells.
fn follows<R: Rank>(
    classes: &ShapeClasses<'_, R>,
    order: &Order<R>,
    t: &[Root3],
    c: Comp<R>,
) -> bool
    requires size { length t.now ≡ R.LEN }
    requires order { order.now ≡ ByIndex }
    ensures { (j : JahnSymbol) → IsShapeOf j R.R classes.now → MatchBool result (Follows j R.R (tensor_of t.now) c) (Breaks j R.R (tensor_of t.now) c) }
{
    let own = component(t, c);
    match classes.representative(order, c) {
        None => own.is_zero(),
        Some((first, sign)) => own.same(&signed(sign, &component(t, first))),
    }
}

/// The first component in index order at which the tensor isn't what its index symmetry tells; none exactly where it
/// has the index symmetry. An error is want of memory.
pub(crate) fn first_broken<R: Rank>(
    alloc: Global,
    shape: &Shape<R>,
    t: &[Root3],
) -> Result<Option<Comp<R>>, ActFault>
    requires { length t.now ≡ R.LEN }
    ensures memory { IfErr result (λ e. e ≡ ActFault.NoMemory) }
    ensures found { IfOk result (λ found. (j : JahnSymbol) → IsShapeOf j R.R shape.now → MatchOption found (HasSymmetry j (tensor_of t.now)) (IsFirstBroken j R.R R.LEN (tensor_of t.now))) }
{
    let classes = match shape.classes(alloc) {
        Ok(classes) => classes,
        Err(_) => return Err(ActFault::NoMemory),
    };
    let order = Order::index();
    for number in 0..R::LEN {
        if !follows(&classes, &order, t, Comp::at(number)) {
            return Ok(Some(Comp::at(number)));
        }
    }
    Ok(None)
}
