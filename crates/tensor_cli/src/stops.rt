//! Why a request has no answer.
use line_runs::Refusal;

/// Why a request has no answer.
#[derive(Clone, Copy, Debug, PartialEq, Eq, Drop)]
pub enum NoAnswer {
    Refused(Refusal),
    NoMemory,
}
