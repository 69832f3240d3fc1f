//! Why a tensor isn't carried.
use std::alloc::{AllocError, AllocFailed};
use thiserror::Error;

/// Why a tensor isn't carried.
#[derive(Clone, Copy, Debug, PartialEq, Eq, Drop, Error)]
pub enum ActFault {
    /// A product or a partial sum reaches 2^62.
    #[error("a product or a partial sum reaches 2^62")]
    TooLarge,
    /// Memory was refused.
    #[error("no memory was left")]
    NoMemory,
}

impl From<root3_num::TooLarge> for ActFault {
    ghost use Rattle.tensor_action.specs.declared.faults.ActFault.TheVariants.{TooLarge};
    ghost use Rattle.std.specs.Prelude.{◌≡◌};

    ghost from_gives = { λ _ e. e ≡ TooLarge };

    fn from(_: root3_num::TooLarge) -> ActFault {
        ActFault::TooLarge
    }
}

impl From<AllocError> for ActFault {
    ghost use Rattle.tensor_action.specs.declared.faults.ActFault.TheVariants.{NoMemory};
    ghost use Rattle.std.specs.Prelude.{◌≡◌};

    ghost from_gives = { λ _ e. e ≡ NoMemory };

    fn from(_: AllocError) -> ActFault {
        ActFault::NoMemory
    }
}

impl<T: Drop> From<AllocFailed<T>> for ActFault {
    ghost use Rattle.tensor_action.specs.declared.faults.ActFault.TheVariants.{NoMemory};
    ghost use Rattle.std.specs.Prelude.{◌≡◌};

    ghost from_gives = { λ _ e. e ≡ NoMemory };

    fn from(_: AllocFailed<T>) -> ActFault {
        ActFault::NoMemory
    }
}
