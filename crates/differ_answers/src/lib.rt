//! The answers to requests for the components that tell the domain states apart. Source: International Tables for
//! Crystallography D 3.4.
#![tactic(auto)]

mod answers;
mod equations;
mod faults;
mod headers;
mod known;
mod states;
mod terms;
#[cfg(test)]
mod tests;

pub use answers::{answer_differ, answer_in_states};
pub use faults::DifferAnswerFault;
pub use state_marks::DifferFault;
