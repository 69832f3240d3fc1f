//! The components that tell domain states apart: the rows of components in another state, in terms of the first state's
//! free components, and which of them differ. Source: International Tables for Crystallography D 3.4.
#![tactic(auto)]

mod adding;
mod alike;
mod faults;
mod marks;
mod rows;
mod states;

pub use alike::act_alike;
pub use faults::DifferFault;
pub use marks::{Marks, differ, first_form};
pub use rows::RootTerm;
pub use states::{StateRows, state_rows};

#[cfg(test)]
mod tests;
