//! Tensor ranks as types, the components of each rank and their orders, and the index symmetry of a Jahn symbol.
#![tactic(auto)]

mod brackets;
mod components;
mod exchanges;
mod flags;
mod laws;
mod orders;
mod ranks;
mod shapes;
mod signs;
mod symbols;

pub use components::{Comp, POWERS};
pub use exchanges::{Exchange, ExchangeMoves};
pub use flags::Flags;
pub use laws::orders_are_orders;
pub use orders::Order;
pub use ranks::{R0, R1, R2, R3, R4, R5, R6, Rank};
pub use shapes::{Shape, ShapeClasses};
pub use sign_moves::NoMemory;
pub use signs::sign_of;
pub use symbols::{AnyShape, compile};
pub use tensor_defs::Sign;

#[cfg(test)]
mod tests;
