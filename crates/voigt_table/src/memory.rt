use thiserror::Error;

/// Memory was refused.
#[derive(Clone, Copy, Debug, PartialEq, Eq, Drop)]
pub struct NoMemory;

impl From<reduced_form::NoMemory> for NoMemory {
    fn from(_error: reduced_form::NoMemory) -> NoMemory {
        NoMemory
    }
}

/// Why a symbol has no Voigt table.
#[derive(Clone, Copy, Debug, PartialEq, Eq, Drop, Error)]
pub enum VoigtFault {
    /// The symbol isn't one of the six that have a Voigt table.
    #[error("the symbol has no Voigt table")]
    Shape,
    /// A number of the elimination, or a weighted factor, grew too large.
    #[error("a number of the table grew too large")]
    TooLarge,
    /// Memory was refused.
    #[error("no memory was left")]
    NoMemory,
}
