//! The lines of component tables as text: a line for each component, whether it is free, 0, or a sum of free components.
#![tactic(auto)]

mod writing;

pub use writing::{append_to, name_bytes, push_factor, unit_sign, write_table, write_term};

#[cfg(test)]
mod tests;
