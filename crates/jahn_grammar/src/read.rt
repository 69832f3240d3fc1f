//! The tree of the symbol that a word spells.

ghost use Rattle.std.specs.Prelude.{◌≡◌, ◌≤◌, length, IfOk};
ghost use Rattle.text_defs.specs.JahnTexts.{IsJahnText, SpellsJahn};
ghost use Rattle.jahn_grammar.specs.Views.{HasAtom, TakesAtom, AreFactorsText, HasFactor, TakesFactor, TakesMarked};
ghost use Rattle.jahn_grammar.specs.Views.{ReadsJahn};
ghost use Rattle.jahn_grammar.specs.Trees.{factor_of};
ghost use Rattle.jahn_grammar.specs.Symbols.{symbol_of};

use crate::scan::{is_power, marks_len, scan_jahn};
use crate::{Atom, Factor, Factors, Jahn, JahnFault, NoMemory, RankCount};
use std::alloc::Global;
use text_laws::one_jahn_symbol;

/// The tree of the atom at the front of the word, and the number of bytes that it takes.
///
/// The opening signs are read from the last one to the first: the atom grows from the inside out.
fn read_atom(alloc: Global, word: &[u8]) -> Result<(Atom, usize), NoMemory>
    requires { HasAtom word.now }
    ensures { IfOk result (λ x. TakesAtom word.now x.0 x.1) }
{
    let mut depth = 0;
    while word[depth] != b'V' {
        depth += 1;
    }
    let mut at = depth + 1;
    let mut atom = Atom::V;
    for open in (0..depth).rev() {
        let blocks = Box::new(alloc, atom)?;
        let power = word[at] - b'0';
        atom = if word[open] == b'[' {
            Atom::Sym(blocks, power)
        } else {
            Atom::Anti(blocks, power)
        };
        at += 2;
    }
    Ok((atom, at))
}

/// The tree of the factor at the front of the word, and the number of bytes that it takes.
fn read_factor(alloc: Global, word: &[u8]) -> Result<(Factor, usize), NoMemory>
    requires { HasFactor word.now }
    ensures { IfOk result (λ x. TakesFactor word.now (factor_of x.0) x.1) }
{
    let (atom, used) = read_atom(alloc, word)?;
    if used < word.len() && is_power(word[used]) {
        let power = word[used] - b'0';
        return Ok((Factor { atom, power }, used + 1));
    }
    Ok((Factor { atom, power: 1 }, used))
}

/// The tree of a word of factors. Two marks `e` before different factors cancel, and so do two marks `a`.
fn read_marked(alloc: Global, word: &[u8]) -> Result<Jahn, NoMemory>
    requires { AreFactorsText word.now }
    ensures { IfOk result (λ jahn. TakesMarked word.now jahn) }
{
    let mut items = Vec::new(alloc);
    let mut axial = false;
    let mut magnetic = false;
    let mut at = 0;
    while at < word.len() {
        let rest = &word[at..];
        let front = marks_len(rest);
        axial ^= rest[..front].contains(&b'e');
        magnetic ^= rest[..front].contains(&b'a');
        let (factor, used) = read_factor(alloc, &rest[front..])?;
        items.push(factor)?;
        at += front + used;
    }
    Ok(Jahn {
        axial,
        magnetic,
        body: Factors { items },
    })
}

/// The tree of a word that spells a symbol.
fn read_tree(alloc: Global, word: &[u8]) -> Result<Jahn, NoMemory>
    requires { IsJahnText word.now }
    ensures { IfOk result (λ jahn. SpellsJahn word.now (symbol_of jahn)) }
{
    let front = marks_len(word);
    if front < word.len() && word[front] != b'1' {
        return read_marked(alloc, word);
    }
    let items = Vec::new(alloc);
    Ok(Jahn {
        axial: word[..front].contains(&b'e'),
        magnetic: word[..front].contains(&b'a'),
        body: Factors { items },
    })
}

/// The tree of the symbol that the whole word spells. Errors: `Syntax` where it spells none, with the length
/// of the longest front of the word that begins some symbol; `Rank` where the symbol's rank is above 6;
/// `NoMemory`, which comes only where the word spells a symbol of a rank to 6.
pub fn read_jahn(alloc: Global, word: &[u8]) -> Result<Jahn, JahnFault>
    requires { length word.now ≤ 4000 }
    ensures { ReadsJahn word.now result }
{
    match scan_jahn(word) {
        Ok(RankCount::Known(_)) => {
            one_jahn_symbol();
            Ok(read_tree(alloc, word)?)
        }
        Ok(RankCount::More) => Err(JahnFault::Rank),
        Err(fault) => Err(JahnFault::Syntax { place: fault.place }),
    }
}
