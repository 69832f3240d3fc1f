//! The top call of the program that turns the name of a group symbol from one dialect into another.
#![tactic(auto)]

mod answers;
mod run;
#[cfg(test)]
mod tests;

pub use run::run_dialect;
pub use tensor_ports::ToolEnd;
