//! The texts of answers: lists of operations, with exact entries.
#![tactic(auto)]

mod operations;
mod room;
mod texts;

pub use operations::{OperationList, write_elements, write_numbered};
pub use room::{NoMemory, append_to};
