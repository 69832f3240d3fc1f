//! The entries of tables of classes.
use tensor_defs::Sign;

/// What a table of classes has at a component: the component that stands for its class, the sign with which the
/// component is carried there, and whether each list that is kept is zero on the class. A table of classes as the
/// moves divide them tells the last only at the component that stands for the class; a table of first components
/// tells it everywhere.
#[derive(Clone, Copy, Debug, PartialEq, Eq)]
pub struct Entry {
    pub first: u16,
    pub sign: Sign,
    pub vanishes: bool,
}
