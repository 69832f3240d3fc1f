//! Voigt tables: matrix notation of tensors whose symbol has a vector and symmetric pairs, with the factors of 2 and 4
//! of compliances. Source: International Tables for Crystallography D 1.1.
#![tactic(auto)]

mod blocks;
mod entries;
mod entry;
mod making;
mod memory;
mod tables;
mod weighing;
mod writing;

pub use making::voigt;
pub use memory::{NoMemory, VoigtFault};
pub use tables::VoigtTable;
pub use tensor_defs::Weights;

#[cfg(test)]
mod tests;
