//! Reading a symbol from a text. Each parent is tried in turn; the place of a fault is the furthest one.
ghost use Rattle.std.specs.Prelude.{◌≡◌, ◌≢◌, take, slice_index, get_or, ◌≤◌, ◌<◌, IfOk, length, true};
ghost use Rattle.text_defs.specs.GroupTexts.{operators_in};
ghost use Rattle.group_symbol.specs.Parts.{ReadsSuffix, ReadsEnding, ReadsFull};
ghost use Rattle.group_symbol.specs.Readings.{ReadsGroup};
ghost use Rattle.group_symbol.specs.Walks.{walk, Walked};

use crate::parents::{Parent, ends_operator};
use crate::suffixes::suffix_at;
use crate::tree::SymbolTree;
use tensor_defs::Setting;
use text_defs::Fault;

/// How many bytes two texts have in common from their beginnings.
pub fn common_front(a: &[u8], b: &[u8]) -> usize
    ensures within_a { result ≤ length a.now }
    ensures within_b { result ≤ length b.now }
    ensures same { take result a.now ≡ take result b.now }
    ensures differ { result < length a.now → result < length b.now → slice_index a.now result ≢ slice_index b.now result }
{
    let mut at = 0;
    while at < a.len() && at < b.len() && a[at] == b[at] {
        at += 1;
    }
    at
}

/// The primes of a text's operators and how many bytes they and the signs take, at the front of a word.
fn read_signs(signs: &[u8], word: &[u8]) -> Result<(u8, usize), Fault>
    requires { operators_in 0 signs.now ≤ 4 }
    ensures read { Walked result (walk 0 signs.now word.now) }
    ensures within { IfOk result (λ x. x.1 ≤ length word.now) }
{
    let mut primes = 0u8;
    let mut bit = 1u8;
    let mut previous = 0;
    let mut at = 0;
    for sign in signs {
        if at >= word.len() || word[at] != *sign {
            return Err(Fault { place: at });
        }
        at += 1;
        if ends_operator(previous, *sign) {
            if at < word.len() && word[at] == b'\'' {
                primes += bit;
                at += 1;
            }
            bit *= 2;
        }
        previous = *sign;
    }
    Ok((primes, at))
}

/// The setting whose suffix, of those that the parent takes, is the whole word.
fn read_suffix(parent: Parent, word: &[u8]) -> Result<Setting, Fault>
    ensures { ReadsSuffix parent word.now result }
{
    let mut place = 0usize;
    for row in 0..7 {
        let suffix = suffix_at(row);
        if suffix.parents.contains(parent) {
            let same = common_front(suffix.text, word);
            if same == suffix.text.len() && same == word.len() {
                return Ok(suffix.setting);
            }
            place = place.max(same);
        }
    }
    Err(Fault { place })
}

/// Whether a symbol is grey, and its setting, as the whole word says them behind the signs. A grey
/// symbol is plain: it has no primes.
fn read_ending(parent: Parent, plain: bool, word: &[u8]) -> Result<(bool, Setting), Fault>
    ensures { ReadsEnding parent plain word.now result }
{
    if plain && word.len() >= 1 && word[0] == b'1' {
        if word.len() < 2 || word[1] != b'\'' {
            return Err(Fault { place: 1 });
        }
        match read_suffix(parent, &word[2..]) {
            Ok(setting) => Ok((true, setting)),
            Err(fault) => Err(Fault {
                place: 2 + fault.place,
            }),
        }
    } else {
        match read_suffix(parent, word) {
            Ok(setting) => Ok((false, setting)),
            Err(fault) => Err(fault),
        }
    }
}

/// Whether a parent's text and a word begin with two different bytes.
fn begin_apart(signs: &[u8], word: &[u8]) -> bool
    ensures signs { result ≡ true → 0 < length signs.now }
    ensures word { result ≡ true → 0 < length word.now }
    ensures apart { result ≡ true → get_or word.now 0 0 ≢ get_or signs.now 0 0 }
{
    signs.len() >= 1 && word.len() >= 1 && word[0] != signs[0]
}

/// The symbol of this parent that the whole word spells, with nothing left out.
fn read_as(parent: Parent, word: &[u8]) -> Result<SymbolTree, Fault>
    ensures { ReadsFull parent word.now result }
{
    let signs = parent.text();
    if begin_apart(signs, word) {
        return Err(Fault { place: 0 });
    }
    let (primes, front) = read_signs(signs, word)?;
    match read_ending(parent, primes == 0, &word[front..]) {
        Ok((grey, setting)) => Ok(SymbolTree {
            parent,
            primes,
            grey,
            setting,
        }),
        Err(fault) => Err(Fault {
            place: front + fault.place,
        }),
    }
}

/// The symbol that the whole word spells, or else the length of the longest front of the word that begins
/// the text of some symbol.
pub fn read_group(word: &[u8]) -> Result<SymbolTree, Fault>
    ensures { ReadsGroup word.now result }
{
    let mut furthest = common_front(b"1'", word);
    if furthest == 2 && word.len() == 2 {
        return Ok(SymbolTree::grey_one());
    }
    for number in 1..43u8 {
        match read_as(Parent { number }, word) {
            Ok(tree) => return Ok(tree),
            Err(fault) => furthest = furthest.max(fault.place),
        }
    }
    Err(Fault { place: furthest })
}
