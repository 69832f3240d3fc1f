//! Component tables of the limiting groups about z: the free components of the tensors that all rational rotations about
//! z, and the mirrors or twofold rotations of the group, leave unchanged.
#![tactic(auto)]

mod diagonals;
mod forms;

pub use forms::curie_form;
pub use limiting_defs::Curie;
pub use reduced_form::SolveFault;

#[cfg(test)]
mod tests;
