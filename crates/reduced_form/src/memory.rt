//! Want of memory, and why constraints have no table.
use std::alloc::{AllocError, AllocFailed};
use thiserror::Error;

/// Memory was refused.
#[derive(Clone, Copy, Debug, PartialEq, Eq, Drop)]
pub struct NoMemory;

impl From<AllocError> for NoMemory {
    fn from(_error: AllocError) -> NoMemory {
        NoMemory
    }
}

impl<T: Drop> From<AllocFailed<T>> for NoMemory {
    fn from(_error: AllocFailed<T>) -> NoMemory {
        NoMemory
    }
}

impl From<constraint_rows::NoMemory> for NoMemory {
    fn from(_error: constraint_rows::NoMemory) -> NoMemory {
        NoMemory
    }
}

impl From<sparse_rows::NoMemory> for NoMemory {
    fn from(_error: sparse_rows::NoMemory) -> NoMemory {
        NoMemory
    }
}

/// Why constraints have no table.
#[derive(Clone, Copy, Debug, PartialEq, Eq, Drop, Error)]
pub enum SolveFault {
    /// A number of the elimination grew too large.
    #[error("a number of the elimination grew too large")]
    TooLarge,
    /// Memory was refused.
    #[error("no memory was left")]
    NoMemory,
}

impl From<NoMemory> for SolveFault {
    ghost use Rattle.reduced_form.specs.declared.memory.SolveFault.TheVariants.{NoMemory as refused};
    ghost use Rattle.std.specs.Prelude.{◌≡◌};

    ghost from_gives = { λ _ e. e ≡ refused };

    fn from(_error: NoMemory) -> SolveFault {
        SolveFault::NoMemory
    }
}

impl From<constraint_rows::NoMemory> for SolveFault {
    ghost use Rattle.reduced_form.specs.declared.memory.SolveFault.TheVariants.{NoMemory as refused};
    ghost use Rattle.std.specs.Prelude.{◌≡◌};

    ghost from_gives = { λ _ e. e ≡ refused };

    fn from(_error: constraint_rows::NoMemory) -> SolveFault {
        SolveFault::NoMemory
    }
}
