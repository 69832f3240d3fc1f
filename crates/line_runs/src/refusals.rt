//! Refusals of a line.
ghost use Rattle.std.specs.Prelude.{◌≡◌, ◌+◌, ◌++◌, ◌<◌, ◌≤◌, [], length};
ghost use Rattle.smallvec.specs.SmallVec.{HasRoomFor, small_vec_len};
ghost use Rattle.text_defs.specs.Refusals.{refusal_text, word_text};
ghost use Rattle.text_defs.specs.Requests.{longest_line};
ghost use Rattle.line_runs.specs.Words.{word_of};

use exact_frac::append;
use itoa::Buffer;
use smallvec::SmallVec;
use std::alloc::Global;
use text_defs::Format;

/// The most bytes of a line that is read as a request.
pub fn longest(format: Format) -> usize
    ensures { result ≡ longest_line format }
{
    match format {
        Format::One => 1000,
        Format::Two => 4000,
    }
}

/// The word of a refusal.
#[derive(Clone, Copy, Debug, PartialEq, Eq, Drop)]
pub enum Word {
    Long,
    Syntax,
    Primes,
    Rank,
    Shape,
    /// With the number of the first element of the second group that isn't in the first, from 1.
    NotSub(usize),
    TooLarge,
}

impl Word {
    /// Appends the word as it is written.
    fn push(self, text: &mut SmallVec<u8, 96>)
        requires { HasRoomFor text.old 27 }
        ensures items { text.new.items ≡ text.old.items ++ word_text (word_of self) }
        ensures len { small_vec_len text.new ≤ small_vec_len text.old + 27 }
        ensures capacity { text.new.capacity ≡ text.old.capacity }
    {
        match self {
            Word::Long => append(text, b"long"),
            Word::Syntax => append(text, b"syntax"),
            Word::Primes => append(text, b"primes"),
            Word::Rank => append(text, b"rank"),
            Word::Shape => append(text, b"shape"),
            Word::NotSub(first) => {
                let mut buffer = Buffer::new();
                append(text, b"notsub ");
                append(text, buffer.format(first).as_bytes());
            }
            Word::TooLarge => append(text, b"toolarge"),
        }
    }
}

/// Why a line is refused, and the column that says so, counted from 1.
#[derive(Clone, Copy, Debug, PartialEq, Eq, Drop)]
pub struct Refusal {
    pub word: Word,
    pub column: u64,
}

impl Refusal {
    /// The refusal of a line that is too long in a format.
    pub fn long(format: Format) -> Refusal
        ensures { result ≡ record { word = Word.Long; column = longest_line format + 1 } }
    {
        Refusal {
            word: Word::Long,
            column: longest(format) as u64 + 1,
        }
    }

    /// The refusal at a place of the line, counted from 0.
    pub fn at(word: Word, place: usize) -> Refusal
        requires { place ≤ 4000 }
        ensures { result ≡ record { word = word; column = place + 1 } }
    {
        Refusal {
            word,
            column: place as u64 + 1,
        }
    }

    /// The text of the refusal of a line with this number, without memory.
    pub fn text(self, alloc: Global, number: u64) -> SmallVec<u8, 96>
        ensures text { result.items ≡ refusal_text number self.column (word_of self.word) }
        ensures short { length result.items ≤ 96 }
    {
        let mut text = SmallVec::new(alloc);
        let mut buffer = Buffer::new();
        append(&mut text, b"error ");
        append(&mut text, buffer.format(number).as_bytes());
        append(&mut text, b" ");
        append(&mut text, buffer.format(self.column).as_bytes());
        append(&mut text, b" ");
        self.word.push(&mut text);
        append(&mut text, b"\n");
        text
    }
}
