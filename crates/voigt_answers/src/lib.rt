//! The answer to a request for a Voigt table.
#![tactic(auto)]

mod answers;
mod memory;

pub use answers::answer_voigt;
pub use voigt_table::{VoigtFault, Weights};

#[cfg(test)]
mod tests;
