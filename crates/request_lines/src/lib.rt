//! The lines of requests: which request of a format a line spells, or else where the line goes wrong. A reader takes
//! no memory, and its time is linear in the line's length.
#![tactic(auto)]

mod keywords;
mod lists;
mod read;
mod words;

pub use group_symbol::SymbolTree;
pub use lists::list_word;
pub use read::read_request;
pub use tensor_defs::Weights;
pub use text_defs::{Fault, Format};

/// A word of a line, from its first byte to the place behind its last one. Places count from 0.
#[derive(Clone, Copy, Debug, PartialEq, Eq, Drop)]
pub struct Span {
    pub start: usize,
    pub end: usize,
}

/// A group symbol, and the place of its first byte in the line, from 0.
#[derive(Clone, Copy, Debug, Drop)]
pub struct Named {
    pub tree: SymbolTree,
    pub start: usize,
}

/// A request: its kind and its words. `g`, `f` and `h` are group symbols, `j` is a Jahn symbol, or the whole list of Jahn
/// symbols with commas in `Form` and `Differ`.
#[derive(Debug, Drop)]
pub enum Request {
    /// The forms of tensors under a group.
    Form { g: Named, j: Span },
    /// The elements of a group.
    Group { g: Named },
    /// The form of a tensor in Voigt notation.
    Voigt { g: Named, j: Span, weights: Weights },
    /// The domain states of a transition from the group `g` to its subgroup `f`.
    States { g: Named, f: Named },
    /// The classes of pairs of its domain states.
    Pairs { g: Named, f: Named },
    /// How tensors differ between its domain states.
    Differ { g: Named, f: Named, j: Span },
    /// Whether two groups give a tensor the same form.
    Same { g: Named, h: Named, j: Span },
    /// A comment, which asks for nothing.
    Comment,
}

#[cfg(test)]
mod tests;
