//! Tables in index order.
ghost use Rattle.tensor_defs.specs.Frames.{IsFramed};
ghost use Rattle.tensor_defs.specs.Jahn.{JahnSymbol};
ghost use Rattle.magnetic_groups.specs.Sets.{In};
ghost use Rattle.tensor_rank.specs.Shapes.{IsShapeOf};
ghost use Rattle.table_answers.specs.Tables.{TellsSame, TellsTable};

use magnetic_groups::Group;
use reduced_form::{Form, SolveFault, solve};
use std::alloc::Global;
use tensor_rank::{Order, Rank, Shape};

/// The component table of a group in index order.
pub fn index_table<R: Rank>(
    alloc: Global,
    group: &Group,
    shape: &Shape<R>,
) -> Result<Form<R>, SolveFault>
    requires { IsFramed (In group.now) }
    ensures { (j : JahnSymbol) → IsShapeOf j R.R shape.now → TellsTable j R.R (In group.now) result }
{
    solve(alloc, group, shape, &Order::index())
}

/// Whether two groups admit the same tensors of a shape: exactly where their tables are the same.
pub fn admit_same<R: Rank>(
    alloc: Global,
    one: &Group,
    other: &Group,
    shape: &Shape<R>,
) -> Result<bool, SolveFault>
    requires one { IsFramed (In one.now) }
    requires other { IsFramed (In other.now) }
    ensures { (j : JahnSymbol) → IsShapeOf j R.R shape.now → TellsSame j (In one.now) (In other.now) result }
{
    match index_table(alloc, one, shape) {
        Ok(first) => match index_table(alloc, other, shape) {
            Ok(second) => Ok(first.same_form(&second)),
            Err(fault) => Err(fault),
        },
        Err(fault) => Err(fault),
    }
}
