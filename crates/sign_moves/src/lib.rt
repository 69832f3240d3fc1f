//! Signed moves of components: the classes into which moves divide the components of a tensor, the components
//! at which each list that the moves keep is zero, and the first component of each class in an order.
#![tactic(auto)]

mod classes;
mod digits;
mod engine;
mod firsts;
mod joined;
mod laws;
mod memory;
mod moves;
mod signs;
mod tabled;

pub use classes::Entry;
pub use digits::digit_row;
pub use engine::class_table;
pub use firsts::{Precedence, first_table, firsts_of_classes};
pub use joined::Joined;
pub use laws::{firsts_tell, joined_tell, tables_tell};
pub use memory::NoMemory;
pub use moves::Moves;
pub use signs::times;
pub use tabled::{Step, Tabled};
pub use tensor_defs::Sign;
