//! Numbers a + b√3.
ghost use Rattle.std.specs.Prelude.{◌≡◌, ◌≢◌, ◌<◌, ◌+◌, ◌^◌, IfOk, MatchBool, MatchOption, MatchResult};
ghost use Rattle.tensor_defs.specs.Number.{mul, root_3, value_of};
ghost use Rattle.text_defs.specs.Languages.{IsFaulty};
ghost use Rattle.exact_frac.specs.Held.{IsHeldAs};
ghost use Rattle.root3_num.specs.Roots.{value_of_root};
ghost use Rattle.number_words.specs.NumberWords.{ReadsNumber, root_word, sign_byte, size};
ghost use Rattle.number_words.specs.Runs.{IsAt, IsFactorText, IsPlus, TellsFactor, TellsSigned};

use crate::magnitudes::{Magnitude, read_magnitude};
use exact_frac::Frac;
use group_symbol::common_front;
use root3_num::Root3;
use tensor_defs::Sign;
use text_defs::Fault;

/// The fraction with a sign.
fn fraction(sign: Sign, num: u64, den: u64) -> Frac
    requires num { num < 10 ^ 18 }
    requires den { den < 10 ^ 18 }
    requires positive { 0 < den }
    ensures { IsHeldAs (size sign num den) result }
{
    let magnitude = Frac::new(num as i64, den as i64).unwrap();
    match sign {
        Sign::Plus => magnitude,
        Sign::Minus => magnitude.neg(),
    }
}

/// A fault behind other bytes.
fn behind(start: usize, fault: Fault) -> Fault
    requires { start + fault.place < 2 ^ 64 }
    ensures { result.place ≡ start + fault.place }
{
    Fault {
        place: start + fault.place,
    }
}

/// That the text is `r3`.
fn read_root(text: &[u8]) -> Result<(), Fault>
    ensures { MatchResult result (λ _. text.now ≡ root_word) (λ f. IsFaulty (λ z. z ≡ root_word) text.now f.place) }
{
    let place = common_front(b"r3", text);
    if place == 2 && text.len() == 2 {
        Ok(())
    } else {
        Err(Fault { place })
    }
}

/// Whether the text has the byte at a place.
fn has_at(text: &[u8], place: usize, byte: u8) -> bool
    ensures { MatchBool result (IsAt text.now place byte) (IsAt text.now place byte → ⊥) }
{
    place < text.len() && text[place] == byte
}

/// The multiple of √3 that the whole text is.
fn read_factor(text: &[u8]) -> Result<Magnitude, Fault>
    ensures tells { TellsFactor text.now result }
    ensures small { IfOk result (λ m. (m.num < 10 ^ 18) × (m.den < 10 ^ 18) × (0 < m.den)) }
{
    if has_at(text, 0, b'r') {
        return match read_root(text) {
            Ok(()) => Ok(Magnitude {
                num: 1,
                den: 1,
                end: 2,
            }),
            Err(fault) => Err(fault),
        };
    }
    let m = match read_magnitude(text) {
        Ok(m) => m,
        Err(fault) => return Err(fault),
    };
    if !has_at(text, m.end, b'*') {
        return Err(Fault { place: m.end });
    }
    match read_root(&text[m.end + 1..]) {
        Ok(()) => Ok(m),
        Err(fault) => Err(behind(m.end + 1, fault)),
    }
}

/// The sign that a byte is; none for another byte.
fn sign_of(byte: u8) -> Option<Sign>
    ensures { MatchOption result ((byte ≢ 43) × (byte ≢ 45)) (λ s. byte ≡ sign_byte s) }
{
    match byte {
        b'+' => Some(Sign::Plus),
        b'-' => Some(Sign::Minus),
        _ => None,
    }
}

/// The number a + b√3 whose second part has a sign and is the whole text.
fn read_sum(a: Frac, sign: Sign, text: &[u8]) -> Result<Root3, Fault>
    ensures { MatchResult result (λ r. IsPlus (value_of a) sign text.now (value_of_root r)) (λ f. IsFaulty IsFactorText text.now f.place) }
{
    match read_factor(text) {
        Ok(factor) => Ok(Root3::of(a, fraction(sign, factor.num, factor.den))),
        Err(fault) => Err(fault),
    }
}

/// The number a√3.
fn times_root(a: Frac) -> Root3
    ensures { value_of_root result ≡ mul (value_of a) root_3 }
{
    Root3::of(Frac::zero(), a)
}

/// The number a.
fn rational(a: Frac) -> Root3
    ensures { value_of_root result ≡ value_of a }
{
    Root3::of(a, Frac::zero())
}

/// The number that the whole text is, whose first magnitude has this sign.
fn read_signed(sign: Sign, text: &[u8]) -> Result<Root3, Fault>
    ensures { TellsSigned sign text.now result }
{
    if has_at(text, 0, b'r') {
        return match read_root(text) {
            Ok(()) => Ok(times_root(fraction(sign, 1, 1))),
            Err(fault) => Err(fault),
        };
    }
    let m = match read_magnitude(text) {
        Ok(m) => m,
        Err(fault) => return Err(fault),
    };
    let first = fraction(sign, m.num, m.den);
    if m.end == text.len() {
        return Ok(rational(first));
    }
    let rest = &text[m.end + 1..];
    if has_at(text, m.end, b'*') {
        return match read_root(rest) {
            Ok(()) => Ok(times_root(first)),
            Err(fault) => Err(behind(m.end + 1, fault)),
        };
    }
    let Some(second) = sign_of(text[m.end]) else {
        return Err(Fault { place: m.end });
    };
    match read_sum(first, second, rest) {
        Ok(number) => Ok(number),
        Err(fault) => Err(behind(m.end + 1, fault)),
    }
}

/// The number that the whole word stands for: a magnitude (1 to 18 digits, and `/` with 1 to 18 digits that aren't all 0,
/// or not), with `-` before it or not; a multiple of `r3`, which is √3; or both with a sign between them. Else the length
/// of the longest front of the word that begins such a text.
pub fn read_number(word: &[u8]) -> Result<Root3, Fault>
    ensures { ReadsNumber word.now result }
{
    if has_at(word, 0, b'-') {
        match read_signed(Sign::Minus, &word[1..]) {
            Ok(number) => Ok(number),
            Err(fault) => Err(behind(1, fault)),
        }
    } else {
        read_signed(Sign::Plus, word)
    }
}
