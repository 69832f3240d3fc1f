//! Refusals of the words of a command line.
ghost use Rattle.std.specs.Prelude.{◌≡◌, ◌++◌, map, string_bytes, IfOk, OnOk, MatchOption};
ghost use Rattle.tool_runs.specs.Tools.{FirstLong, NoneLong, name_text, refusal_text};

use answer_writers::{NoMemory, append_to};
use itoa::Buffer;
use std::alloc::Global;

/// The most bytes of a word.
const LONGEST: usize = 4000;

/// The name of a refusal.
#[derive(Clone, Copy, Debug, PartialEq, Eq, Drop)]
pub enum RefusalName {
    Long,
    Syntax,
    Primes,
    Rank,
    /// With the number of the first element of the second group that isn't in the first, from 1.
    NotSub(usize),
    TooLarge,
    Twice,
    NoName,
}

/// Why the words are refused: the number of a word, a column of it, both counted from 1, and the name.
#[derive(Clone, Copy, Debug, PartialEq, Eq, Drop)]
pub struct ToolRefusal {
    pub word: usize,
    pub column: usize,
    pub name: RefusalName,
}

/// The number of the first word of more than 4000 bytes, counted from 1.
pub fn first_long(words: &[String]) -> Option<usize>
    ensures { MatchOption result (NoneLong (map string_bytes words.now)) (FirstLong (map string_bytes words.now)) }
{
    for place in 0..words.len() {
        if words[place].as_bytes().len() > LONGEST {
            return Some(place + 1);
        }
    }
    None
}

/// Appends the name of a refusal.
fn append_name(name: RefusalName, out: &mut Vec<u8>) -> Result<(), NoMemory>
    ensures ok { OnOk result (out.new.items ≡ out.old.items ++ name_text name) }
{
    match name {
        RefusalName::Long => append_to(out, b"long"),
        RefusalName::Syntax => append_to(out, b"syntax"),
        RefusalName::Primes => append_to(out, b"primes"),
        RefusalName::Rank => append_to(out, b"rank"),
        RefusalName::NotSub(first) => {
            append_to(out, b"notsub ")?;
            append_to(out, Buffer::new().format(first).as_bytes())
        }
        RefusalName::TooLarge => append_to(out, b"toolarge"),
        RefusalName::Twice => append_to(out, b"twice"),
        RefusalName::NoName => append_to(out, b"noname"),
    }
}

/// The text of a refusal: `error`, the number of the word, the column, and the name.
pub fn refusal_line(alloc: Global, refusal: ToolRefusal) -> Result<Vec<u8>, NoMemory>
    ensures { IfOk result (λ text. text.items ≡ refusal_text refusal) }
{
    let mut text = Vec::new(alloc);
    let mut buffer = Buffer::new();
    append_to(&mut text, b"error ")?;
    append_to(&mut text, buffer.format(refusal.word).as_bytes())?;
    append_to(&mut text, b" ")?;
    append_to(&mut text, buffer.format(refusal.column).as_bytes())?;
    append_to(&mut text, b" ")?;
    append_name(refusal.name, &mut text)?;
    append_to(&mut text, b"\n")?;
    Ok(text)
}
