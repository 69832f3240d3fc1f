//! The answers to two kinds of request: the component table of a tensor, and whether two groups admit the same tensors.
#![tactic(auto)]

mod forms;
mod memory;
mod sameness;
mod solving;

pub use forms::{answer_form, counts};
pub use reduced_form::SolveFault;
pub use sameness::answer_same;

#[cfg(test)]
mod tests;
