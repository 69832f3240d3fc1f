//! Group symbols: Hermann-Mauguin symbols with primes, read from text, written, and taken apart into the
//! operations that generate their groups.
#![tactic(auto)]

mod generators;
mod laws;
mod parents;
mod read;
mod short_text;
mod suffixes;
mod tree;
mod write;

pub use generators::{Generators, generators_of, turned_to};
pub use laws::{written_text_reads_back, written_text_spells};
pub use op_matrix::Op;
pub use parents::Parent;
pub use read::{common_front, read_group};
pub use tensor_defs::{Direction, OpKind, Setting};
pub use text_defs::Fault;
pub use tree::SymbolTree;
pub use write::{NoMemory, setting_text, write_group};

#[cfg(test)]
mod tests;
