//! The marks of a Jahn symbol.

/// The marks of a Jahn symbol: `e` (axial) and `a` (magnetic).
#[derive(Clone, Copy, Debug, PartialEq, Eq, Drop)]
pub struct Flags {
    pub axial: bool,
    pub magnetic: bool,
}
