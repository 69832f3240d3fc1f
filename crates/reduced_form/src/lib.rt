//! Component tables: the free components of the tensors that a group leaves unchanged, and each component as a sum of
//! them. Source: International Tables for Crystallography D 1.1.
#![tactic(auto)]

mod comparing;
mod eliminating;
mod forms;
mod free;
mod memory;
mod rows;
mod solving;
mod sparse;
mod told;

pub use eliminating::eliminate;
pub use forms::{Form, Term};
pub use memory::{NoMemory, SolveFault};
pub use solving::solve;
