//! What the programs that answer the words of their command line share: words that are too long, refusals, and the one
//! text that is written.
#![tactic(auto)]

mod refusals;
mod runs;

pub use answer_writers::NoMemory;
pub use refusals::{RefusalName, ToolRefusal, first_long, refusal_line};
pub use runs::{Kind, write_text};
pub use tensor_ports::ToolEnd;
