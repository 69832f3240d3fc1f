//! Names of group symbols in three dialects: the short Hermann-Mauguin text, the long one, and the name of the class
//! after Schoenflies. Source: International Tables for Crystallography A; the marks of time reversal and the dots of
//! long texts are this project's own.
#![tactic(auto)]

mod class_names;
mod fault;
mod forms;
mod laws;
mod long_texts;
mod read;
mod search;
mod write;

pub use fault::DialectFault;
pub use group_symbol::{NoMemory, SymbolTree};
pub use laws::{
    long_operators_are_elements, name_names_first, one_long_text, one_reading, one_symbol,
    written_names_symbol,
};
pub use read::read_any;
pub use write::{Dialect, write_dialect};

#[cfg(test)]
mod tests;
