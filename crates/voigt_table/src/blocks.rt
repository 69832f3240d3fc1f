//! The symbols that have a Voigt table.
ghost use Rattle.std.specs.Prelude.{◌≡◌, ◌↔◌, ◌∷◌, [], IsTrue};
ghost use Rattle.tensor_defs.specs.Jahn as defs;
ghost use Rattle.jahn_grammar.specs.Symbols.{symbol_of};
ghost use Rattle.jahn_grammar.specs.Trees.{atom_of, factor_of};
ghost use Rattle.voigt_table.specs.Blocks.{GivesBlocks, TellsPiece, one_blocks, two_blocks};

use crate::entries::Blocks;
use jahn_grammar::{Atom, Factor, Jahn};

/// A factor of a symbol that has a Voigt table.
#[derive(Clone, Copy, Debug, PartialEq, Eq, Drop)]
pub enum Piece {
    /// V
    Vector,
    /// [V2]
    Pair,
    /// [V2]2
    TwoPairs,
    /// [[V2]2]
    PairOfPairs,
}

/// Whether an atom is V.
fn is_vector(atom: &Atom) -> bool
    ensures { IsTrue result ↔ (atom_of atom.now ≡ defs.V) }
{
    matches!(atom, Atom::V)
}

/// Whether an atom is [V2].
fn is_pair(atom: &Atom) -> bool
    ensures { IsTrue result ↔ (atom_of atom.now ≡ defs.Bracketed defs.Symmetric defs.V 2) }
{
    match atom {
        Atom::Sym(inner, power) => *power == 2 && is_vector(inner),
        _ => false,
    }
}

/// Whether an atom is [[V2]2].
fn is_pair_of_pairs(atom: &Atom) -> bool
    ensures { IsTrue result ↔ (atom_of atom.now ≡ defs.Bracketed defs.Symmetric (defs.Bracketed defs.Symmetric defs.V 2) 2) }
{
    match atom {
        Atom::Sym(inner, power) => *power == 2 && is_pair(inner),
        _ => false,
    }
}

/// What a factor is, if it is one of a symbol that has a Voigt table.
fn piece_of(factor: &Factor) -> Option<Piece>
    ensures { TellsPiece (factor_of factor.now) result }
{
    match factor.power {
        1 if is_vector(&factor.atom) => Some(Piece::Vector),
        1 if is_pair(&factor.atom) => Some(Piece::Pair),
        1 if is_pair_of_pairs(&factor.atom) => Some(Piece::PairOfPairs),
        2 if is_pair(&factor.atom) => Some(Piece::TwoPairs),
        _ => None,
    }
}

/// The blocks of one factor.
fn blocks_of_one(piece: Piece) -> Option<Blocks>
    ensures { result ≡ one_blocks piece }
{
    match piece {
        Piece::Pair => Some(Blocks::Pair),
        Piece::TwoPairs | Piece::PairOfPairs => Some(Blocks::TwoPairs),
        Piece::Vector => None,
    }
}

/// The blocks of two factors.
fn blocks_of_two(first: Piece, second: Piece) -> Option<Blocks>
    ensures { result ≡ two_blocks first second }
{
    match (first, second) {
        (Piece::Vector, Piece::Pair) => Some(Blocks::VectorPair),
        (Piece::Pair, Piece::Vector) => Some(Blocks::PairVector),
        (Piece::Pair, Piece::Pair) => Some(Blocks::TwoPairs),
        _ => None,
    }
}

/// The blocks of a symbol of one factor.
fn blocks_of_first(factor: &Factor) -> Option<Blocks>
    ensures { GivesBlocks (factor_of factor.now ∷ []) result }
{
    match piece_of(factor) {
        Some(piece) => blocks_of_one(piece),
        None => None,
    }
}

/// The blocks of a symbol of two factors.
fn blocks_of_both(first: &Factor, second: &Factor) -> Option<Blocks>
    ensures { GivesBlocks (factor_of first.now ∷ factor_of second.now ∷ []) result }
{
    match (piece_of(first), piece_of(second)) {
        (Some(one), Some(other)) => blocks_of_two(one, other),
        _ => None,
    }
}

/// The blocks of a symbol. None exactly where it isn't one of the six that have a Voigt table.
pub fn blocks_of(jahn: &Jahn) -> Option<Blocks>
    ensures { GivesBlocks (symbol_of jahn.now).factors result }
{
    match jahn.body.len() {
        1 => blocks_of_first(jahn.body.at(0)),
        2 => blocks_of_both(jahn.body.at(0), jahn.body.at(1)),
        _ => None,
    }
}
