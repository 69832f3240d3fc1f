//! Reads request lines from a source, and writes the answer of each to a sink: the request that a line spells, its symbols, and
//! the answer of each kind, or the first refusal; what becomes of the lines of a generated run; and the top call.
#![tactic(auto)]

mod answers;
mod kinds;
mod stops;
mod symbols;
mod tensors;
mod told;
mod top;

pub use answers::answer_line;
pub use line_runs::{LineEnd, NoMemory, Outcome};
pub use request_lines::{Fault, Format, Named, Request, Span, Weights, list_word, read_request};
pub use top::{run, run_within};
