//! The action of an operation on the components of a tensor of typed rank. Source: International Tables for
//! Crystallography D 1.1; Gallego et al. 2019 for the mark of time reversal in equilibrium.
#![tactic(auto)]

mod action;
mod coefficients;
mod faults;
mod parts;
mod products;
#[cfg(test)]
mod tests;
mod turns;

pub use action::act;
pub use coefficients::coefficient;
pub use faults::ActFault;
pub use parts::{Part, Parts};
pub use turns::products_act_in_turn;
