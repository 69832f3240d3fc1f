//! Reading a word in any dialect.
ghost use Rattle.std.specs.Prelude.{IfOk};
ghost use Rattle.tensor_defs.specs.Group.{IsAccepted};
ghost use Rattle.dialects.specs.Answers.{ReadsAny, TellsAccepted};

use crate::class_names::read_name;
use crate::fault::DialectFault;
use crate::search::read_long;
use group_symbol::{NoMemory, SymbolTree, read_group};
use magnetic_groups::{GroupFault, build_group};
use std::alloc::Global;

/// The symbol, where it is accepted.
fn accepted(alloc: Global, tree: SymbolTree) -> Result<SymbolTree, DialectFault>
    ensures { TellsAccepted tree result }
{
    match build_group(alloc, &tree) {
        Ok(_) => Ok(tree),
        Err(GroupFault::Primes) => Err(DialectFault::Primes),
        Err(GroupFault::NoMemory) => Err(DialectFault::NoMemory),
    }
}

/// The accepted symbol that a word names: the word spells it, is its long text, or is a name after Schoenflies that
/// is read as it. Primes exactly where the word spells a symbol that isn't accepted; Syntax exactly where it names
/// none.
pub fn read_any(alloc: Global, word: &[u8]) -> Result<SymbolTree, DialectFault>
    ensures { ReadsAny word.now result }
{
    let spelled = match read_group(word) {
        Ok(tree) => return accepted(alloc, tree),
        Err(fault) => fault.place,
    };
    let named = match read_name(word) {
        Ok(tree) => return Ok(tree),
        Err(fault) => fault.place,
    };
    match read_long(alloc, word) {
        Ok(Ok(tree)) => Ok(tree),
        Ok(Err(fault)) => Err(DialectFault::Syntax {
            place: spelled.max(named).max(fault.place),
        }),
        Err(NoMemory) => Err(DialectFault::NoMemory),
    }
}
