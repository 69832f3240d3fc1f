//! The exact elimination on sparse rows of fractions.
#![tactic(auto)]

mod elimination;
mod entry;
mod marks;
mod merge;
mod solution;
mod steps;
#[cfg(test)]
mod tests;
mod whole;

pub use elimination::eliminate;
pub use entry::{EliminateFault, Entry, KeptRow, NoMemory, PivotSum, Row};
pub use solution::pivot_sums;
pub use whole::{WholeEntry, row_of_whole};
