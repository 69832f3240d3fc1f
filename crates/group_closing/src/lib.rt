//! Operations by the marks of their places, and the closing of a group in them: all products of generators, their listing,
//! and few generators of a group. Source: International Tables for Crystallography D 1.1.
#![tactic(auto)]

mod closing;
mod found;
mod greedy;
mod joining;
mod listing;
mod marks;

pub use closing::{close_marks, join_marks};
pub use greedy::{Greedy, greedy_of};
pub use listing::list_marked;
pub use marks::Marks;
