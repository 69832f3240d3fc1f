//! The diagonal members of a limiting group.
ghost use Rattle.std.specs.Prelude.{◌≡◌, IfOk, false};
ghost use Rattle.tensor_defs.specs.Group.{InGroup};
ghost use Rattle.tensor_defs.specs.Lists.{IsListing};
ghost use Rattle.tensor_defs.specs.OperationOrder.{comes_before};
ghost use Rattle.tensor_defs.specs.Symbols.{IsGroupSymbol};
ghost use Rattle.group_symbol.specs.Readings.{symbol_of};
ghost use Rattle.limiting_defs.specs.Limiting.{diagonal_symbol};

use group_symbol::{Parent, Setting, SymbolTree};
use limiting_defs::Curie;
use limiting_laws::diagonals_accepted;
use magnetic_groups::{Group, GroupFault, build_group};
use reduced_form::NoMemory;
use std::alloc::Global;

/// The symbol of a parent in a setting, with no primes.
fn plain_symbol(number: u8, setting: Setting) -> SymbolTree
    requires { IsGroupSymbol (symbol_of number 0 false setting) }
    ensures { result ≡ symbol_of number 0 false setting }
{
    match Parent::from_number(number) {
        Some(parent) => match SymbolTree::new(parent, 0, false, setting) {
            Some(tree) => tree,
            None => unreachable!(),
        },
        None => unreachable!(),
    }
}

/// The symbol of the diagonal members: 2@z, mm2, 222, 2/m@z or mmm.
fn diagonal_symbol(group: Curie) -> SymbolTree
    ensures { result ≡ diagonal_symbol group }
{
    match group {
        Curie::Inf => plain_symbol(3, Setting::Z),
        Curie::InfM => plain_symbol(7, Setting::Default),
        Curie::Inf2 => plain_symbol(6, Setting::Default),
        Curie::InfOverM => plain_symbol(5, Setting::Z),
        Curie::InfOverMM => plain_symbol(10, Setting::Default),
    }
}

/// The group of the diagonal members.
pub fn diagonal_group(alloc: Global, group: Curie) -> Result<Group, NoMemory>
    ensures { IfOk result (λ g. IsListing comes_before (InGroup (diagonal_symbol group)) g) }
{
    diagonals_accepted();
    match build_group(alloc, &diagonal_symbol(group)) {
        Ok(elements) => Ok(elements),
        Err(GroupFault::Primes) => unreachable!(),
        Err(GroupFault::NoMemory) => Err(NoMemory),
    }
}
