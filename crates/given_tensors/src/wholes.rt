//! The groups in which the symmetry of a tensor is looked for.
ghost use Rattle.std.specs.Prelude.{◌≡◌, IfOk, true};
ghost use Rattle.tensor_defs.specs.Group.{InGroup};
ghost use Rattle.tensor_defs.specs.Lists.{IsListing};
ghost use Rattle.tensor_defs.specs.OperationOrder.{comes_before};
ghost use Rattle.tensor_defs.specs.Symbols.{IsGroupSymbol};
ghost use Rattle.group_symbol.specs.Readings.{symbol_of};
ghost use Rattle.given_tensors.specs.Wholes.{whole_symbol};

use group_symbol::{Parent, Setting, SymbolTree};
use magnetic_groups::{Group, GroupFault, NoMemory, build_group};
use std::alloc::Global;

/// A group that holds the magnetic point groups of one kind of axes.
#[derive(Clone, Copy, Debug, PartialEq, Eq, Drop)]
pub enum Whole {
    /// `m-3m1'`.
    Cubic,
    /// `6/mmm1'`.
    Hexagonal,
}

/// The grey symbol of a parent.
fn grey_symbol(number: u8) -> SymbolTree
    requires { IsGroupSymbol (symbol_of number 0 true Setting.Default) }
    ensures { result ≡ symbol_of number 0 true Setting.Default }
{
    match Parent::from_number(number) {
        Some(parent) => match SymbolTree::new(parent, 0, true, Setting::Default) {
            Some(tree) => tree,
            None => unreachable!(),
        },
        None => unreachable!(),
    }
}

/// The symbol of a whole group.
fn whole_symbol(whole: Whole) -> SymbolTree
    ensures { result ≡ whole_symbol whole }
{
    match whole {
        Whole::Cubic => grey_symbol(42),
        Whole::Hexagonal => grey_symbol(37),
    }
}

/// The whole group.
pub(crate) fn whole_group(alloc: Global, whole: Whole) -> Result<Group, NoMemory>
    ensures { IfOk result (λ g. IsListing comes_before (InGroup (whole_symbol whole)) g) }
{
    match build_group(alloc, &whole_symbol(whole)) {
        Ok(group) => Ok(group),
        Err(GroupFault::Primes) => unreachable!(),
        Err(GroupFault::NoMemory) => Err(NoMemory),
    }
}
