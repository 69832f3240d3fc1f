use coset_states::StateFault;
use state_marks::DifferFault;
use thiserror::Error;

/// Memory was refused.
#[derive(Clone, Copy, Debug, PartialEq, Eq, Drop)]
pub struct NoMemory;

impl From<answer_writers::NoMemory> for NoMemory {
    fn from(_: answer_writers::NoMemory) -> NoMemory {
        NoMemory
    }
}

impl From<group_symbol::NoMemory> for NoMemory {
    fn from(_: group_symbol::NoMemory) -> NoMemory {
        NoMemory
    }
}

impl From<jahn_grammar::NoMemory> for NoMemory {
    fn from(_: jahn_grammar::NoMemory) -> NoMemory {
        NoMemory
    }
}

impl From<NoMemory> for DifferFault {
    ghost use Rattle.state_marks.specs.declared.faults.DifferFault.TheVariants.{NoMemory as refused};
    ghost use Rattle.std.specs.Prelude.{◌≡◌};

    ghost from_gives = { λ _ e. e ≡ refused };

    fn from(_: NoMemory) -> DifferFault {
        DifferFault::NoMemory
    }
}

/// Why a request for the components that tell states apart has no answer.
#[derive(Clone, Copy, Debug, PartialEq, Eq, Drop, Error)]
pub enum DifferAnswerFault {
    /// An element of the second group isn't in the first: the least place of one, counted from 1.
    #[error("element {first} of the second group isn't in the first")]
    NotSubgroup { first: usize },
    /// A number of the elimination or of a row grew too large.
    #[error("a number of the elimination or of a row grew too large")]
    TooLarge,
    /// No memory was left.
    #[error("no memory was left")]
    NoMemory,
}

impl From<StateFault> for DifferAnswerFault {
    ghost use Rattle.std.specs.Prelude.{◌≡◌};
    ghost use Rattle.differ_answers.specs.Told.{of_states};

    ghost from_gives = { λ e f. f ≡ of_states e };

    fn from(fault: StateFault) -> DifferAnswerFault {
        match fault {
            StateFault::NotSubgroup { first } => DifferAnswerFault::NotSubgroup { first },
            StateFault::NoMemory => DifferAnswerFault::NoMemory,
        }
    }
}

impl DifferAnswerFault {
    ghost use Rattle.std.specs.Prelude.{◌≡◌};
    ghost use Rattle.differ_answers.specs.Told.{of_rows};

    /// Why there is no answer where the states are known.
    pub(crate) fn of(fault: DifferFault) -> DifferAnswerFault
        ensures { result ≡ of_rows fault }
    {
        match fault {
            DifferFault::TooLarge => DifferAnswerFault::TooLarge,
            DifferFault::NoMemory => DifferAnswerFault::NoMemory,
        }
    }
}
