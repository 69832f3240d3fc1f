ghost use Rattle.std.specs.Prelude.{◌≡◌, ◌≤◌};
ghost use Rattle.tensor_defs.specs.Frames.{IsFramed};
ghost use Rattle.tensor_defs.specs.Jahn.{JahnSymbol, rank};
ghost use Rattle.tensor_defs.specs.Voigt.{HasBlocks, rank_of_blocks};
ghost use Rattle.jahn_grammar.specs.Symbols.{symbol_of};
ghost use Rattle.magnetic_groups.specs.Sets.{In};
ghost use Rattle.tensor_rank.specs.Shapes.{IsShapeOf};
ghost use Rattle.voigt_table.specs.Blocks.{sizes_of};
ghost use Rattle.voigt_table.specs.Tables.{TellsBlocks, TellsVoigt};

use crate::blocks::blocks_of;
use crate::entries::Blocks;
use crate::memory::VoigtFault;
use crate::tables::VoigtTable;
use crate::weighing::weighed_table;
use jahn_grammar::Jahn;
use magnetic_groups::Group;
use reduced_form::{SolveFault, solve};
use std::alloc::Global;
use tensor_defs::Weights;
use tensor_rank::{Rank, Shape, at_rank, compile};

/// The Voigt table of a shape whose blocks are known.
fn table_at<R: Rank>(
    alloc: Global,
    group: &Group,
    shape: &Shape<R>,
    blocks: Blocks,
    weights: Weights,
) -> Result<VoigtTable, SolveFault>
    requires framed { IsFramed (In group.now) }
    requires blocks { rank_of_blocks (sizes_of blocks) ≡ R.R }
    ensures { (j : JahnSymbol) → IsShapeOf j R.R shape.now → TellsBlocks j (In group.now) (sizes_of blocks) weights result }
{
    match solve(alloc, group, shape, &blocks.order()) {
        Ok(form) => weighed_table(form, blocks, weights),
        Err(fault) => Err(fault),
    }
}

/// The Voigt table of a symbol whose blocks are known.
fn table_of(
    alloc: Global,
    group: &Group,
    jahn: &Jahn,
    blocks: Blocks,
    weights: Weights,
) -> Result<VoigtTable, SolveFault>
    requires framed { IsFramed (In group.now) }
    requires rank { rank (symbol_of jahn.now) ≤ 6 }
    requires blocks { HasBlocks (symbol_of jahn.now).factors (sizes_of blocks) }
    ensures { TellsBlocks (symbol_of jahn.now) (In group.now) (sizes_of blocks) weights result }
{
    match compile(alloc, jahn) {
        Ok(shape) => at_rank!(shape, s => table_at(alloc, group, &s, blocks, weights)),
        Err(_) => Err(SolveFault::NoMemory),
    }
}

/// The Voigt table of the tensors of a symbol that a framed group leaves unchanged: with plain weights each entry is its
/// component, with shear weights it is 2 to the power of its shear pairs times its component. `Shape` comes exactly where
/// the symbol without marks isn't `[V2]`, `V[V2]`, `[V2]V`, `[V2][V2]`, `[V2]2` or `[[V2]2]`; `TooLarge` exactly where the
/// elimination in the order of entries grows or a weighted factor reaches 2^62, and never for a group that is all plain.
pub fn voigt(
    alloc: Global,
    group: &Group,
    jahn: &Jahn,
    weights: Weights,
) -> Result<VoigtTable, VoigtFault>
    requires framed { IsFramed (In group.now) }
    requires rank { rank (symbol_of jahn.now) ≤ 6 }
    ensures { TellsVoigt (symbol_of jahn.now) (In group.now) weights result }
{
    let Some(blocks) = blocks_of(jahn) else {
        return Err(VoigtFault::Shape);
    };
    match table_of(alloc, group, jahn, blocks, weights) {
        Ok(table) => Ok(table),
        Err(SolveFault::TooLarge) => Err(VoigtFault::TooLarge),
        Err(SolveFault::NoMemory) => Err(VoigtFault::NoMemory),
    }
}
