//! The answer to a group and a subgroup: which of their domain states polarisation, strain and magnetisation tell apart.
#![tactic(auto)]

mod answers;
mod lines;
mod runs;

pub use runs::run_species;
pub use tool_runs::ToolEnd;

#[cfg(test)]
mod tests;
