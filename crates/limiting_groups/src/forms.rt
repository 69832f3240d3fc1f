//! Component tables of limiting groups.
ghost use Rattle.std.specs.Prelude.{◌≡◌, IfErr, IfOk};
ghost use Rattle.tensor_defs.specs.Jahn.{JahnSymbol};
ghost use Rattle.tensor_rank.specs.Shapes.{IsShapeOf};
ghost use Rattle.reduced_form.specs.Forms.{form_table};
ghost use Rattle.reduced_form.specs.declared.memory.SolveFault.{SolveFault};
ghost use Rattle.limiting_groups.specs.CurieTables.{CurieGrows, FitsCurie};

use crate::diagonals::diagonal_group;
use axis_laws::one_elimination;
use constraint_rows::{axis_classes, turning_rows};
use limiting_defs::Curie;
use limiting_laws::turning_rows_decide;
use reduced_form::{Form, SolveFault, eliminate};
use std::alloc::Global;
use tensor_rank::{Order, Rank, Shape};

/// The component table, in index order, of the tensors of a symbol that a limiting group leaves unchanged. Since all
/// elements of its diagonal group are diagonal, their classes are those of the exchanges of the symbol's blocks, less
/// the components that an element turns round. `TooLarge` comes exactly where the elimination on the rows of the words
/// grows whose counts of + and - differ.
pub fn curie_form<R: Rank>(
    alloc: Global,
    group: Curie,
    shape: &Shape<R>,
) -> Result<Form<R>, SolveFault>
    ensures fits { IfOk result (λ f. (j : JahnSymbol) → IsShapeOf j R.R shape.now → FitsCurie j group (form_table R.R f)) }
    ensures calm { IfOk result (λ _. (j : JahnSymbol) → IsShapeOf j R.R shape.now → CurieGrows j group → ⊥) }
    ensures grows { IfErr result (λ e. e ≡ SolveFault.TooLarge → (j : JahnSymbol) → IsShapeOf j R.R shape.now → CurieGrows j group) }
{
    turning_rows_decide();
    one_elimination();
    let order = Order::index();
    let elements = diagonal_group(alloc, group)?;
    let _elements = elements.len();
    let classes = axis_classes(alloc, &elements, shape, &order)?;
    let rows = turning_rows(alloc, &classes, &order)?;
    let form = eliminate(alloc, &classes, &rows, &order)?;
    Ok(form)
}
