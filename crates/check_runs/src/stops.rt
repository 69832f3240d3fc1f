//! Why words have no answer.
ghost use Rattle.std.specs.Prelude.{◌≡◌};
ghost use Rattle.check_runs.specs.Stops.{IsGrownStop};

use tensor_action::ActFault;
use tool_runs::{RefusalName, ToolRefusal};

/// Why words have no answer.
#[derive(Clone, Copy, Debug, PartialEq, Eq, Drop)]
pub(crate) enum Stop {
    Refused(ToolRefusal),
    NoMemory,
}

/// A refusal of a word.
pub(crate) fn refused(word: usize, column: usize, name: RefusalName) -> Stop
    ensures { result ≡ Stop.Refused (record { word = word; column = column; name = name }) }
{
    Stop::Refused(ToolRefusal { word, column, name })
}

/// The refusal of a tensor whose action grows.
pub(crate) fn grown(fault: ActFault) -> Stop
    ensures { IsGrownStop fault result }
{
    match fault {
        ActFault::TooLarge => refused(2, 1, RefusalName::TooLarge),
        ActFault::NoMemory => Stop::NoMemory,
    }
}
