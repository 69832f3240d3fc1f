//! The answers to requests for domain states and for their pair classes. Source: International Tables for
//! Crystallography D 3.4.
#![tactic(auto)]

mod pairs;
mod pieces;
mod states;
#[cfg(test)]
mod tests;

pub use coset_states::StateFault;
pub use pairs::answer_pairs;
pub use states::answer_states;
