//! The group of a symbol.
ghost use Rattle.std.specs.Prelude.{◌≡◌, IfOk, Err};
ghost use Rattle.tensor_defs.specs.Lists.{IsListing};
ghost use Rattle.tensor_defs.specs.OperationOrder.{comes_before};
ghost use Rattle.tensor_defs.specs.Group.{InGroup, IsAccepted};
ghost use Rattle.tensor_defs.specs.Frames.{IsFramed};
ghost use Rattle.magnetic_groups.specs.Sets.{In};
ghost use Rattle.magnetic_groups.specs.Laws.{AcceptedAreFramed};

use crate::Group;
use crate::closing::close;
use group_symbol::{SymbolTree, generators_of};
use op_matrix::Op;
use std::alloc::{AllocError, Global};
use thiserror::Error;

/// Why a symbol has no group.
#[derive(Clone, Copy, Debug, PartialEq, Eq, Drop, Error)]
pub enum GroupFault {
    /// The symbol isn't grey, and time reversal alone is a product of its operators.
    #[error("time reversal alone is in the group of a symbol that isn't grey")]
    Primes,
    /// No memory was left.
    #[error("no memory was left")]
    NoMemory,
}

impl From<AllocError> for GroupFault {
    ghost use Rattle.magnetic_groups.specs.declared.build.GroupFault.TheVariants.{NoMemory};
    ghost use Rattle.std.specs.Prelude.{◌≡◌};

    ghost from_gives = { λ _ e. e ≡ NoMemory };

    fn from(_: AllocError) -> GroupFault {
        GroupFault::NoMemory
    }
}

/// The group of a symbol, which is framed: all products of its operators, and of time reversal where it is grey.
pub fn build_group(alloc: Global, tree: &SymbolTree) -> Result<Group, GroupFault>
    ensures group { IfOk result (λ g. IsListing comes_before (InGroup tree.now) g) }
    ensures framed { IfOk result (λ g. IsFramed (In g)) }
    ensures accepted { IfOk result (λ _. IsAccepted tree.now) }
    ensures primes { result ≡ Err GroupFault.Primes → ¬ IsAccepted tree.now }
{
    let grey = tree.is_grey();
    let group = close(alloc, generators_of(tree))?;
    if !grey && group.has(&Op::reversal()) {
        return Err(GroupFault::Primes);
    }
    Ok(group)
}

/// The group of each accepted symbol is framed.
pub fn accepted_are_framed()
    ensures { AcceptedAreFramed }
{}
