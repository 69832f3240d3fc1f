//! How a run ends.
ghost use Rattle.std.specs.Prelude.{◌≡◌};
ghost use Rattle.std.specs.Option.{option_map};
ghost use Rattle.line_runs.specs.Outcomes.{outcome_at, status_of, word_on};

/// How a run ended.
#[derive(Clone, Copy, Debug, PartialEq, Eq, Drop)]
pub enum Outcome {
    Answered,
    SomeRefused,
    Usage,
    ReadFault,
    WriteFault,
    NoMemory,
    InputLimit,
}

impl Outcome {
    /// The exit status.
    pub fn status(self) -> u8
        ensures { result ≡ status_of self }
    {
        match self {
            Outcome::Answered => 0,
            Outcome::SomeRefused => 1,
            Outcome::Usage => 2,
            Outcome::ReadFault => 3,
            Outcome::WriteFault => 4,
            Outcome::NoMemory => 5,
            Outcome::InputLimit => 6,
        }
    }

    /// What a person is told of a run that ended before its time, if anything.
    pub fn word(self) -> Option<&'static str>
        ensures { option_map (λ word. word.now) result ≡ word_on self }
    {
        match self {
            Outcome::Answered | Outcome::SomeRefused => None,
            Outcome::Usage => Some("usage: tensors [--generate N --seed S]"),
            Outcome::ReadFault => Some("tensors: reading standard input failed"),
            Outcome::WriteFault => Some("tensors: writing standard output failed"),
            Outcome::NoMemory => Some("tensors: memory was refused"),
            Outcome::InputLimit => Some("tensors: standard input has more than 4294967296 bytes"),
        }
    }
}

/// Why a run stops before the end of the input.
#[derive(Clone, Copy, Debug, PartialEq, Eq, Drop)]
pub enum Stop {
    Memory,
    Read,
    Write,
    Limit,
}

/// The outcome of a run: it came to the end, and tells whether a line was refused, or it stopped before.
pub fn outcome_of(ended: Result<bool, Stop>) -> Outcome
    ensures { result ≡ outcome_at ended }
{
    match ended {
        Ok(false) => Outcome::Answered,
        Ok(true) => Outcome::SomeRefused,
        Err(Stop::Memory) => Outcome::NoMemory,
        Err(Stop::Read) => Outcome::ReadFault,
        Err(Stop::Write) => Outcome::WriteFault,
        Err(Stop::Limit) => Outcome::InputLimit,
    }
}
