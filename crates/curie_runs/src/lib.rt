//! The answer to a limiting group and a Jahn symbol: the component table of the tensors that the group leaves unchanged.
#![tactic(auto)]

mod answers;
mod memory;
mod names;
mod runs;

pub use limiting_groups::Curie;
pub use names::read_curie;
pub use runs::run_curie;
pub use tool_runs::ToolEnd;

#[cfg(test)]
mod tests;
