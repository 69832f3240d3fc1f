//! Magnitudes: digits, or digits, `/` and digits.
ghost use Rattle.std.specs.Prelude.{◌≡◌, ◌<◌, ◌≤◌, ◌^◌, length, IfOk, MatchOption};
ghost use Rattle.std.specs.Char.{digit_value};
ghost use Rattle.number_words.specs.Runs.{IsRun, TellsMagnitude};

use text_defs::Fault;

/// The most digits of a numerator or a denominator.
const MOST: usize = 18;

/// A magnitude, and the place behind it.
#[derive(Clone, Copy, Debug, Drop)]
pub(crate) struct Magnitude {
    pub num: u64,
    pub den: u64,
    pub end: usize,
}

/// The value of a decimal digit; none for another byte.
fn digit_of(byte: u8) -> Option<u64>
    ensures { MatchOption result (digit_value byte < 10 → ⊥) (λ d. (d ≡ digit_value byte) × (d < 10)) }
{
    if b'0' <= byte && byte <= b'9' {
        Some(u64::from(byte - b'0'))
    } else {
        None
    }
}

/// The value of the digits at the front of a text, 18 at most, and how many they are.
fn read_digits(text: &[u8]) -> (u64, usize)
    ensures run { IsRun text.now result.0 result.1 }
    ensures small { result.0 < 10 ^ 18 }
{
    let mut value = 0;
    for count in 0..text.len().min(MOST) {
        match digit_of(text[count]) {
            Some(digit) => value = value * 10 + digit,
            None => return (value, count),
        }
    }
    (value, text.len().min(MOST))
}

/// The magnitude at the front of a text, or the place where there is none.
pub(crate) fn read_magnitude(text: &[u8]) -> Result<Magnitude, Fault>
    ensures tells { TellsMagnitude text.now result }
    ensures within { IfOk result (λ m. m.end ≤ length text.now) }
    ensures small { IfOk result (λ m. (m.num < 10 ^ 18) × (m.den < 10 ^ 18) × (0 < m.den)) }
{
    let (num, count) = read_digits(text);
    if count == 0 {
        return Err(Fault { place: 0 });
    }
    if count == text.len() || text[count] != b'/' {
        return Ok(Magnitude {
            num,
            den: 1,
            end: count,
        });
    }
    let (den, more) = read_digits(&text[count + 1..]);
    if den == 0 {
        return Err(Fault {
            place: count + 1 + more.min(MOST - 1),
        });
    }
    Ok(Magnitude {
        num,
        den,
        end: count + 1 + more,
    })
}
