//! The lines of an input, answered as they come: one buffer for the line that is read, one for the answers that wait to be
//! written, the refusals, and the run over a source and a sink. What answers a line is given.
#![tactic(auto)]

mod buffer;
mod lines;
mod outcome;
mod refusals;
mod top;
mod waiting;

pub use lines::{AnswersLines, LineEnd, is_heading_line, refuse, refuse_long};
pub use outcome::Outcome;
pub use refusals::{Refusal, Word, longest};
pub use tensor_ports::NoMemory;
pub use text_defs::Format;
pub use top::run_within;
