//! The exchanges of neighbouring blocks of brackets.
ghost use Rattle.std.specs.Prelude.{◌≡◌, ℕ, ◌+◌, ◌*◌, ◌<◌, ◌≤◌, ◌++◌, OnOk, List, [], false, true};
ghost use Rattle.tensor_defs.specs.Jahn.{BracketKind, IsAtom, IsFactor, atom_rank, factors_rank, body_brackets, is_antisymmetric};
ghost use Rattle.jahn_grammar.specs.Trees.{AreFactorTrees, atom_of, factor_of, factors_of};
ghost use Rattle.tensor_rank.specs.Symmetry.{at_each, atom_exchanges, bracket_at, exchanges_of, neighbours};

use crate::exchanges::Exchange;
use itertools::Itertools;
use jahn_grammar::{Atom, Factor, Factors};
use sign_moves::NoMemory;

/// Appends the exchanges of neighbouring blocks of a bracket.
fn push_neighbours(
    out: &mut Vec<Exchange>,
    start: u8,
    width: u8,
    negates: bool,
    count: u8,
) -> Result<(), NoMemory>
    requires { start + count * width < 256 }
    ensures { OnOk result (out.new.items ≡ out.old.items ++ neighbours (bracket_at start width negates) count) }
{
    for (one, next) in (0..count).tuple_windows::<(u8, u8)>() {
        out.push(Exchange {
            first: start + one * width,
            second: start + next * width,
            width,
            negates,
        })?;
    }
    Ok(())
}

/// Appends the exchanges of an atom that begins at a place.
#[cycle(bracket)]
fn push_atom(out: &mut Vec<Exchange>, atom: &Atom, start: u8) -> Result<(), NoMemory>
    requires powers { IsAtom (atom_of atom.now) }
    requires small { atom_rank (atom_of atom.now) ≤ 6 }
    requires room { start + atom_rank (atom_of atom.now) < 256 }
    ensures { OnOk result (out.new.items ≡ out.old.items ++ atom_exchanges (atom_of atom.now) start) }
{
    match atom {
        Atom::V => Ok(()),
        Atom::Sym(inner, count) => push_bracket(out, inner, *count, start, false),
        Atom::Anti(inner, count) => push_bracket(out, inner, *count, start, true),
    }
}

/// Appends the exchanges of a bracket that begins at a place, and then those inside each of its blocks.
#[cycle(bracket)]
fn push_bracket(
    out: &mut Vec<Exchange>,
    inner: &Atom,
    count: u8,
    start: u8,
    negates: bool,
) -> Result<(), NoMemory>
    requires powers { IsAtom (atom_of inner.now) }
    requires small { atom_rank (atom_of inner.now) ≤ 6 }
    requires room { start + count * atom_rank (atom_of inner.now) < 256 }
    ensures { OnOk result (out.new.items ≡ out.old.items ++ (neighbours (bracket_at start (atom_rank (atom_of inner.now)) negates) count ++ at_each (atom_exchanges (atom_of inner.now)) start (atom_rank (atom_of inner.now)) count)) }
{
    let width = inner.rank() as u8;
    push_neighbours(out, start, width, negates, count)?;
    for k in 0..count {
        push_atom(out, inner, start + k * width)?;
    }
    Ok(())
}

/// Appends the exchanges of an atom at each of its repetitions.
fn push_factor(out: &mut Vec<Exchange>, factor: &Factor, start: u8) -> Result<(), NoMemory>
    requires powers { IsFactor (factor_of factor.now) }
    requires small { atom_rank (atom_of factor.now.atom) ≤ 6 }
    requires room { start + factor.now.power * atom_rank (atom_of factor.now.atom) < 256 }
    ensures { OnOk result (out.new.items ≡ out.old.items ++ at_each (atom_exchanges (atom_of factor.now.atom)) start (atom_rank (atom_of factor.now.atom)) factor.now.power) }
{
    let width = factor.atom.rank() as u8;
    for k in 0..factor.power {
        push_atom(out, &factor.atom, start + k * width)?;
    }
    Ok(())
}

/// Appends the exchanges of factors.
pub fn push_body(out: &mut Vec<Exchange>, body: &Factors) -> Result<(), NoMemory>
    requires empty { out.old.items ≡ [] }
    requires small { factors_rank (factors_of body.now) ≤ 6 }
    ensures { OnOk result (out.new.items ≡ exchanges_of (body_brackets (factors_of body.now) 0)) }
{
    let mut start = 0;
    for place in 0..body.len() {
        let factor = body.at(place);
        push_factor(out, factor, start)?;
        start += factor.power * factor.atom.rank() as u8;
    }
    Ok(())
}
