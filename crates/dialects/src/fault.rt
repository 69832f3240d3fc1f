//! Why a word names no symbol.
use thiserror::Error;

/// Why a word names no accepted symbol.
#[derive(Clone, Copy, Debug, PartialEq, Eq, Drop, Error)]
pub enum DialectFault {
    /// It names none: the length of its longest front that begins some word that does, in bytes.
    #[error("no symbol has this name: it goes wrong at byte {place}")]
    Syntax { place: usize },
    /// It spells a symbol that isn't grey and has time reversal alone in its group.
    #[error("time reversal alone is in the group of a symbol that isn't grey")]
    Primes,
    /// No memory was left.
    #[error("no memory was left")]
    NoMemory,
}
