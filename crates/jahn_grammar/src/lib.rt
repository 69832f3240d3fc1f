//! Jahn symbols of tensors: their trees, their ranks, and their texts read and written.
#![tactic(auto)]

ghost use Rattle.std.specs.Prelude.{◌≡◌, ◌<◌, ◌≤◌, nat_eq, length, get_or};
ghost use Rattle.tensor_defs.specs.Jahn.{IsAtom, IsFactor, IsJahnSymbol, atom_rank, rank};
ghost use Rattle.jahn_grammar.specs.Trees.{AreFactorTrees, factor_of, atom_of};
ghost use Rattle.jahn_grammar.specs.Symbols.{symbol_of};

use std::alloc::{AllocError, AllocFailed};
use std::marker::Model;

mod read;
mod scan;
mod write;

pub use read::read_jahn;
pub use scan::scan_jahn;
pub use text_defs::Fault;
pub use write::{write_jahn, written_is_spelled};

/// Want of memory.
#[derive(Clone, Copy, Debug, PartialEq, Eq, Drop)]
pub struct NoMemory;

impl From<AllocError> for NoMemory {
    fn from(_error: AllocError) -> NoMemory {
        NoMemory
    }
}

impl<T: Drop> From<AllocFailed<T>> for NoMemory {
    fn from(_failed: AllocFailed<T>) -> NoMemory {
        NoMemory
    }
}

/// Why a word gives no tree.
#[derive(Clone, Copy, Debug, PartialEq, Eq, Drop, thiserror::Error)]
pub enum JahnFault {
    /// The word spells no symbol; its longest front that begins one has this many bytes.
    #[error("no Jahn symbol: wrong at byte {place}")]
    Syntax { place: usize },
    /// The word spells a symbol of a rank above 6.
    #[error("the rank is above 6")]
    Rank,
    /// Want of memory.
    #[error("out of memory")]
    NoMemory,
}

impl From<NoMemory> for JahnFault {
    ghost use Rattle.std.specs.Prelude.{◌≡◌};
    ghost use Rattle.jahn_grammar.specs.declared.JahnFault.{JahnFault};

    ghost from_gives = { λ _ fault. fault ≡ JahnFault.NoMemory };

    fn from(_want: NoMemory) -> JahnFault {
        JahnFault::NoMemory
    }
}

/// The rank of a symbol, 0 to 6, or that it is above 6.
#[derive(Clone, Copy, Debug, PartialEq, Eq, Drop)]
pub enum RankCount {
    Known(u8),
    More,
}

/// The indices of a factor: one, or a bracket with its power, whose blocks are interchangeable.
#[derive(Debug, Drop)]
pub enum Atom {
    /// One index.
    V,
    /// `[` atom power `]`: exchanging two blocks leaves components the same.
    Sym(Box<Atom>, u8),
    /// `{` atom power `}`: exchanging two blocks negates components.
    Anti(Box<Atom>, u8),
}

/// An atom, repeated as many times as the power says.
#[derive(Debug, Drop)]
pub struct Factor {
    pub atom: Atom,
    pub power: u8,
}

/// The factors of a symbol, from left to right. Their powers are 1 to 6, and those in brackets 2 to 6.
#[derive(Debug, Drop)]
pub struct Factors {
    items: Vec<Factor>,
}

impl Model for Factors {
    ghost use Rattle.std.specs.Prelude.{List};
    ghost use Rattle.jahn_grammar.specs.declared.Factor.{Factor};

    ghost Value = { List Factor };

    ghost use Rattle.std.specs.Coded.{coded_list};
    ghost use Rattle.jahn_grammar.specs.Codes.{factor_code};

    ghost coded = { coded_list factor_code };

    ghost view = { λ a. a.items.items };

    ghost use Rattle.jahn_grammar.specs.Trees.{AreFactorTrees};

    ghost invariant = { λ a. AreFactorTrees a.items.items };
}

/// A Jahn symbol: its marks `e` (axial) and `a` (magnetic), and its factors; none at rank 0.
#[derive(Debug, Drop)]
pub struct Jahn {
    pub axial: bool,
    pub magnetic: bool,
    pub body: Factors,
}

impl Factors {
    /// The number of factors.
    pub fn len(&self) -> usize
        ensures count { result ≡ length self.now }
        ensures powers { AreFactorTrees self.now }
    {
        self.items.len()
    }

    /// Whether there are no factors.
    pub fn is_empty(&self) -> bool
        ensures { result ≡ nat_eq (length self.now) 0 }
    {
        self.items.len() == 0
    }

    /// The factor at a place.
    pub fn at(&self, place: usize) -> &Factor
        requires { place < length self.now }
        ensures factor { result.now ≡ get_or self.now place result.now }
        ensures powers { IsFactor (factor_of result.now) }
    {
        &self.items[place]
    }
}

impl Jahn {
    /// The number of indices.
    pub fn rank(&self) -> usize
        requires { rank (symbol_of self.now) ≤ 6 }
        ensures count { result ≡ rank (symbol_of self.now) }
        ensures powers { IsJahnSymbol (symbol_of self.now) }
    {
        let mut sum = 0;
        for place in 0..self.body.len() {
            let factor = self.body.at(place);
            sum += factor.power as usize * factor.atom.rank();
        }
        sum
    }
}

impl Atom {
    /// The number of indices.
    pub fn rank(&self) -> usize
        requires powers { IsAtom (atom_of self.now) }
        requires small { atom_rank (atom_of self.now) ≤ 6 }
        ensures { result ≡ atom_rank (atom_of self.now) }
    {
        match self {
            Atom::V => 1,
            Atom::Sym(atom, power) => *power as usize * atom.rank(),
            Atom::Anti(atom, power) => *power as usize * atom.rank(),
        }
    }
}

#[cfg(test)]
mod tests;
