//! Tensors that are given by all their components: whether a group leaves one unchanged, and the first fact that
//! refutes it; and the group of all operations that leave one unchanged. Source: International Tables for
//! Crystallography D 1.1.
#![tactic(auto)]

mod carried;
mod changes;
mod stabilisers;
mod symmetry;
mod verdict;
mod wholes;

pub use stabilisers::stabiliser;
pub use tensor_action::ActFault;
pub use verdict::{Verdict, check};
pub use wholes::Whole;

#[cfg(test)]
mod tests;
