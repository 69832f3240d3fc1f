//! Classes of components under groups of signed permutation matrices and exchanges of index blocks: where each
//! invariant tensor is zero, and by which component, up to a sign, each other one is told. For groups on the hexagonal
//! axes the classes under the exchanges and the diagonal elements, and the rows that the threefold rotation gives.
//! Source: International Tables for Crystallography D 1.1.
#![tactic(auto)]

mod axis;
mod choosing;
mod classing;
mod gathering;
mod op_moves;
mod ops;
mod reading;
mod rows;
mod words;

pub use axis::{axis_classes, killed_by_diagonal};
pub use classing::{Classes, plain_classes};
pub use rows::{Part, Row};
pub use sign_moves::NoMemory;
pub use words::{rows_of_words, turning_rows, word_rows};

#[cfg(test)]
mod tests;
