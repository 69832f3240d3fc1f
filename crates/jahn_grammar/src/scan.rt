//! The rank of the symbol that a word spells, or the place where the word goes wrong.

ghost use Rattle.std.specs.Prelude.{◌≡◌, ◌≢◌, ℕ, ◌*◌, ◌≤◌, ◌<◌, length, get_or, min, MatchBool, IfOk};
ghost use Rattle.jahn_grammar.specs.Views.{CountIs, IsOpening, IsDigit, IsMark, MarksAre, ReadsAtom, ReadsRank, closer};
ghost use Rattle.jahn_grammar.specs.Views.{ReadsFactor};

use crate::{Fault, RankCount};

/// The lesser of 7 and the product: every rank above 6 is alike.
fn capped_product(rank: u8, power: u8) -> u8
    requires rank_in { rank ≤ 7 }
    requires power_in { power ≤ 6 }
    ensures { result ≡ min (power * rank) 7 }
{
    (power * rank).min(7)
}

/// The count of a rank that is given as 7 where it is above 6.
fn rank_count(rank: u8) -> RankCount
    ensures { (n : ℕ) → rank ≡ min n 7 → CountIs result n }
{
    if rank > 6 {
        RankCount::More
    } else {
        RankCount::Known(rank)
    }
}

fn is_opening(byte: u8) -> bool
    ensures { MatchBool result (IsOpening byte) (IsOpening byte → ⊥) }
{
    byte == b'[' || byte == b'{'
}

/// Whether the byte is a power that may stand behind an atom: 2 to 6.
pub(crate) fn is_power(byte: u8) -> bool
    ensures { MatchBool result (IsDigit byte) (IsDigit byte → ⊥) }
{
    b'2' <= byte && byte <= b'6'
}

fn closing_of(opening: u8) -> u8
    ensures { result ≡ closer opening }
{
    if opening == b'[' { b']' } else { b'}' }
}

/// The number of bytes that the atom at the front of the word takes, and its rank, or 7 where it is above 6.
///
/// An atom is a run of opening signs, a V, and a power and a closing sign for each opening sign, the last
/// one first. So the opening signs of the word itself serve as the stack.
fn scan_atom(word: &[u8]) -> Result<(usize, u8), Fault>
    requires { length word.now ≤ 4000 }
    ensures { ReadsAtom word.now result }
{
    let mut depth = 0;
    while depth < word.len() && is_opening(word[depth]) {
        depth += 1;
    }
    if depth == word.len() || word[depth] != b'V' {
        return Err(Fault { place: depth });
    }
    let mut at = depth + 1;
    let mut rank = 1u8;
    for open in (0..depth).rev() {
        if at >= word.len() || !is_power(word[at]) {
            return Err(Fault { place: at });
        }
        rank = capped_product(rank, word[at] - b'0');
        at += 1;
        if at >= word.len() || word[at] != closing_of(word[open]) {
            return Err(Fault { place: at });
        }
        at += 1;
    }
    Ok((at, rank))
}

fn is_mark(byte: u8) -> bool
    ensures { MatchBool result (IsMark byte) (IsMark byte → ⊥) }
{
    byte == b'a' || byte == b'e'
}

/// How many marks the word begins with.
pub(crate) fn marks_len(word: &[u8]) -> usize
    ensures { MarksAre word.now result }
{
    if word.len() < 1 || !is_mark(word[0]) {
        return 0;
    }
    if word.len() < 2 || !is_mark(word[1]) || word[0] == word[1] {
        return 1;
    }
    2
}

/// The place behind the factor from a place on, and its rank, or 7 where it is above 6. A digit behind its atom is
/// its power.
fn scan_factor(word: &[u8], start: usize) -> Result<(usize, u8), Fault>
    requires short { length word.now ≤ 4000 }
    requires fits { start ≤ length word.now }
    ensures reads { ReadsFactor word.now start result }
    ensures within { IfOk result (λ x. x.0 ≤ length word.now) }
{
    let rest = &word[start..];
    match scan_atom(rest) {
        Ok((used, rank)) if used < rest.len() && is_power(rest[used]) => {
            Ok((start + used + 1, capped_product(rank, rest[used] - b'0')))
        }
        Ok((used, rank)) => Ok((start + used, rank)),
        Err(fault) => Err(Fault {
            place: start + fault.place,
        }),
    }
}

/// The rank of the symbol of a word of factors, where the marks before the first are as many as front says.
fn scan_factors(word: &[u8], front: usize) -> Result<RankCount, Fault>
    requires short { length word.now ≤ 4000 }
    requires marks { MarksAre word.now front }
    requires fits { front < length word.now }
    requires no_one { get_or word.now front 0 ≢ 49 }
    ensures { ReadsRank word.now result }
{
    let (mut at, mut rank) = scan_factor(word, front)?;
    while at < word.len() {
        let start = at + marks_len(&word[at..]);
        let (end, more) = scan_factor(word, start)?;
        at = end;
        rank = (rank + more).min(7);
    }
    Ok(rank_count(rank))
}

/// The rank of the symbol that the whole word spells, in time linear in the word's length. `Err` where it
/// spells none: the length of the longest front of the word that begins some symbol.
pub fn scan_jahn(word: &[u8]) -> Result<RankCount, Fault>
    requires { length word.now ≤ 4000 }
    ensures { ReadsRank word.now result }
{
    let front = marks_len(word);
    if front >= word.len() {
        return if front == 0 {
            Err(Fault { place: 0 })
        } else {
            Ok(RankCount::Known(0))
        };
    }
    if word[front] == b'1' {
        return if front + 1 == word.len() {
            Ok(RankCount::Known(0))
        } else {
            Err(Fault { place: front + 1 })
        };
    }
    scan_factors(word, front)
}
