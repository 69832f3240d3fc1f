//! The answer to a group, a Jahn symbol and components given by numbers: whether the group leaves the tensor unchanged,
//! and the group of all operations that do.
#![tactic(auto)]

mod given;
mod memory;
mod runs;
mod settings;
mod stops;
#[cfg(test)]
mod tests;
mod texts;

pub use runs::run_check;
pub use tool_runs::ToolEnd;
