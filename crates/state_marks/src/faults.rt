use reduced_form::SolveFault;
use std::alloc::{AllocError, AllocFailed};
use thiserror::Error;

/// Why the rows of components in the states aren't told.
#[derive(Clone, Copy, Debug, PartialEq, Eq, Drop, Error)]
pub enum DifferFault {
    /// A number of the elimination or of a row grew too large.
    #[error("a number of the elimination or of a row grew too large")]
    TooLarge,
    /// Memory was refused.
    #[error("no memory was left")]
    NoMemory,
}

impl From<SolveFault> for DifferFault {
    ghost use Rattle.std.specs.Prelude.{◌≡◌};
    ghost use Rattle.state_marks.specs.Told.{fault_of};

    ghost from_gives = { λ e f. f ≡ fault_of e };

    fn from(fault: SolveFault) -> DifferFault {
        match fault {
            SolveFault::TooLarge => DifferFault::TooLarge,
            SolveFault::NoMemory => DifferFault::NoMemory,
        }
    }
}

impl From<root3_num::TooLarge> for DifferFault {
    ghost use Rattle.state_marks.specs.declared.faults.DifferFault.TheVariants.{TooLarge};
    ghost use Rattle.std.specs.Prelude.{◌≡◌};

    ghost from_gives = { λ _ e. e ≡ TooLarge };

    fn from(_: root3_num::TooLarge) -> DifferFault {
        DifferFault::TooLarge
    }
}

impl From<AllocError> for DifferFault {
    ghost use Rattle.state_marks.specs.declared.faults.DifferFault.TheVariants.{NoMemory};
    ghost use Rattle.std.specs.Prelude.{◌≡◌};

    ghost from_gives = { λ _ e. e ≡ NoMemory };

    fn from(_: AllocError) -> DifferFault {
        DifferFault::NoMemory
    }
}

impl<T: Drop> From<AllocFailed<T>> for DifferFault {
    ghost use Rattle.state_marks.specs.declared.faults.DifferFault.TheVariants.{NoMemory};
    ghost use Rattle.std.specs.Prelude.{◌≡◌};

    ghost from_gives = { λ _ e. e ≡ NoMemory };

    fn from(_: AllocFailed<T>) -> DifferFault {
        DifferFault::NoMemory
    }
}
