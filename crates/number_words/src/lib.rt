//! The reader of numbers a + b√3 with fractions a and b, as `-1/2`, `r3` or `1/2-3/4*r3`.
#![tactic(auto)]

mod laws;
mod magnitudes;
mod numbers;
#[cfg(test)]
mod tests;

pub use laws::one_number;
pub use numbers::read_number;
pub use text_defs::Fault;
