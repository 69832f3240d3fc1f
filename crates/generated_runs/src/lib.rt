//! Generated runs: request lines that are made from a seed, what becomes of them, and the summary of their answers.
#![tactic(auto)]

mod counts;
mod draws;
pub mod laws;
mod room;
#[cfg(test)]
mod tests;
mod top;

pub use counts::{Counts, LineOutcome, Refusal};
pub use draws::{Draws, Kind};
pub use top::{Answers, Stop, run_generated};
