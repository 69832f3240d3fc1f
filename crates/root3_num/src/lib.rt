//! Numbers a + b√3 with exact fractions a and b.
#![tactic(auto)]

mod root;
#[cfg(test)]
mod tests;
mod text;

pub use root::{Root3, TooLarge};
pub use text::{is_negative_part, is_one_part, is_zero_part, size_of_part};
