//! Exact fractions in lowest terms, whose numerator and denominator have magnitudes below 2^62.
#![tactic(auto)]

mod divisor;
mod frac;
mod lowest;
#[cfg(test)]
mod tests;
mod text;

pub use frac::{Frac, FracFault, TooLarge};
pub use text::append;
