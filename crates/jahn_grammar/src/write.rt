//! The text of a symbol.

ghost use Rattle.std.specs.Prelude.{◌≡◌, ◌≤◌, ◌++◌, IfOk, OnErr, take, vec_len, vec_capacity};
ghost use Rattle.tensor_defs.specs.Jahn.{IsAtom, IsFactor};
ghost use Rattle.text_defs.specs.JahnTexts.{atom_text, factor_text, factors_text, jahn_text};
ghost use Rattle.jahn_grammar.specs.Trees.{atom_of, factor_of, factors_of};
ghost use Rattle.jahn_grammar.specs.Symbols.{symbol_of};
ghost use Rattle.jahn_grammar.specs.Laws.{WrittenIsSpelled};

use crate::{Atom, Factor, Jahn, NoMemory};

/// Appends an atom. After an error, more than what was there may stand in `out`.
fn push_atom(atom: &Atom, out: &mut Vec<u8>) -> Result<(), NoMemory>
    requires { IsAtom (atom_of atom.now) }
    ensures text { IfOk result (λ _. out.new.items ≡ out.old.items ++ atom_text (atom_of atom.now)) }
    ensures front { take (vec_len out.old) out.new.items ≡ out.old.items }
    ensures capacity { vec_capacity out.old ≤ vec_capacity out.new }
{
    match atom {
        Atom::V => out.push(b'V')?,
        Atom::Sym(blocks, power) => {
            out.push(b'[')?;
            push_atom(blocks, out)?;
            out.push(b'0' + *power)?;
            out.push(b']')?;
        }
        Atom::Anti(blocks, power) => {
            out.push(b'{')?;
            push_atom(blocks, out)?;
            out.push(b'0' + *power)?;
            out.push(b'}')?;
        }
    }
    Ok(())
}

/// Appends a factor. After an error, more than what was there may stand in `out`.
fn push_factor(factor: &Factor, out: &mut Vec<u8>) -> Result<(), NoMemory>
    requires { IsFactor (factor_of factor.now) }
    ensures text { IfOk result (λ _. out.new.items ≡ out.old.items ++ factor_text (factor_of factor.now)) }
    ensures front { take (vec_len out.old) out.new.items ≡ out.old.items }
    ensures capacity { vec_capacity out.old ≤ vec_capacity out.new }
{
    push_atom(&factor.atom, out)?;
    if factor.power != 1 {
        out.push(b'0' + factor.power)?;
    }
    Ok(())
}

/// What stands before the factors: the marks, or `1` where there is neither a mark nor a factor.
fn head(jahn: &Jahn) -> &'static [u8]
    ensures { result.now ++ factors_text (factors_of jahn.now.body) ≡ jahn_text (symbol_of jahn.now) }
{
    match (jahn.axial, jahn.magnetic) {
        (true, true) => b"ae",
        (true, false) => b"e",
        (false, true) => b"a",
        (false, false) => if jahn.body.is_empty() { b"1" } else { b"" },
    }
}

/// Appends a symbol. After an error, more than what was there may stand in `out`.
fn push_jahn(jahn: &Jahn, out: &mut Vec<u8>) -> Result<(), NoMemory>
    ensures text { IfOk result (λ _. out.new.items ≡ out.old.items ++ jahn_text (symbol_of jahn.now)) }
    ensures front { take (vec_len out.old) out.new.items ≡ out.old.items }
    ensures capacity { vec_capacity out.old ≤ vec_capacity out.new }
{
    out.extend_from_slice(head(jahn))?;
    for place in 0..jahn.body.len() {
        push_factor(jahn.body.at(place), out)?;
    }
    Ok(())
}

/// Appends the text of a symbol: the marks in the order `ae`, then the factors, each with its power where that
/// is not 1; `1` where there is neither a mark nor a factor. After an error `out` is as before.
pub fn write_jahn(jahn: &Jahn, out: &mut Vec<u8>) -> Result<(), NoMemory>
    ensures text { IfOk result (λ _. out.new.items ≡ out.old.items ++ jahn_text (symbol_of jahn.now)) }
    ensures kept { OnErr result (out.new.items ≡ out.old.items) }
    ensures capacity { vec_capacity out.old ≤ vec_capacity out.new }
{
    let before = out.len();
    let written = push_jahn(jahn, out);
    if written.is_err() {
        out.truncate(before);
    }
    written
}

/// The text that is written for a symbol spells it.
pub fn written_is_spelled()
    ensures { WrittenIsSpelled }
{}
