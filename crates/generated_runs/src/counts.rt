//! What became of lines, counted, and the summary of the counts.
ghost use Rattle.std.specs.Prelude.{◌≡◌, ◌+◌, ◌<◌, ◌^◌, ◌++◌, List, ℕ, [], ◌∷◌, length, map, IfOk, OnOk, drop};
ghost use Rattle.generated_runs.specs.Outcomes.{place_among, place_of};
ghost use Rattle.generated_runs.specs.Summary.{AreCounts, entries, entry, summary_text};

use crate::draws::{Kind, NAMES};
use crate::room::append;
use itoa::{Buffer, Integer};
use std::alloc::Global;
use tensor_ports::NoMemory;

/// Why a line is refused.
#[derive(Clone, Copy, Debug, PartialEq, Eq, Drop)]
pub enum Refusal {
    Long,
    Syntax,
    Primes,
    Rank,
    Shape,
    NotSub,
    TooLarge,
}

/// The words of the refusals.
static WORDS: [&str; 7] = [
    "long", "syntax", "primes", "rank", "shape", "notsub", "toolarge",
];

/// What became of a line.
#[derive(Clone, Copy, Debug, PartialEq, Eq, Drop)]
pub enum LineOutcome {
    /// Its kind, and the number of free components that the header of the answer names; 0 where it names none.
    Answered(Kind, usize),
    Refused(Refusal),
}

/// How many lines of each kind were answered, how many were refused with each word, and the sum of the numbers of free
/// components.
#[derive(Debug, Drop)]
pub struct Counts {
    pub answered: [u64; 7],
    pub refused: [u64; 7],
    pub free: u128,
    pub any_refused: bool,
}

/// The place of a kind among the kinds.
fn place_of(kind: Kind) -> usize
    ensures place { result ≡ place_of kind }
    ensures few { result < 7 }
{
    match kind {
        Kind::Form => 0,
        Kind::Group => 1,
        Kind::Voigt => 2,
        Kind::States => 3,
        Kind::Pairs => 4,
        Kind::Differ => 5,
        Kind::Same => 6,
    }
}

/// The place of a refusal among the refusals.
fn place_among(refusal: Refusal) -> usize
    ensures place { result ≡ place_among refusal }
    ensures few { result < 7 }
{
    match refusal {
        Refusal::Long => 0,
        Refusal::Syntax => 1,
        Refusal::Primes => 2,
        Refusal::Rank => 3,
        Refusal::Shape => 4,
        Refusal::NotSub => 5,
        Refusal::TooLarge => 6,
    }
}

impl Counts {
    /// Nothing is counted yet.
    pub fn new() -> Counts
        ensures { AreCounts [] result }
    {
        Counts {
            answered: [0; 7],
            refused: [0; 7],
            free: 0,
            any_refused: false,
        }
    }

    /// Counts a line.
    pub fn count(&mut self, outcome: LineOutcome)
        requires counts { (os : List LineOutcome) × AreCounts os self.old × (length os < 2 ^ 32) }
        requires room { self.old.free < 2 ^ 127 }
        ensures counts { (os : List LineOutcome) → AreCounts os self.old → AreCounts (os ++ outcome ∷ []) self.new }
        ensures free { self.new.free < self.old.free + 2 ^ 64 }
    {
        match outcome {
            LineOutcome::Answered(kind, free) => {
                self.answered[place_of(kind)] += 1;
                self.free += free as u128;
            }
            LineOutcome::Refused(refusal) => {
                self.refused[place_among(refusal)] += 1;
                self.any_refused = true;
            }
        }
    }

    /// The summary of a run of so many lines.
    pub fn summary(&self, alloc: Global, lines: u64) -> Result<Vec<u8>, NoMemory>
        ensures { (os : List LineOutcome) → AreCounts os self.now → IfOk result (λ text. text.items ≡ summary_text lines os) }
    {
        let mut text = Vec::new(alloc);
        write_entry("lines", lines, &mut text)?;
        write_entries(&NAMES, &self.answered, &mut text)?;
        write_entries(&WORDS, &self.refused, &mut text)?;
        write_entry("free", self.free, &mut text)?;
        write_entry("end", lines, &mut text)?;
        Ok(text)
    }
}

/// Appends words with their numbers.
fn write_entries(
    words: &[&'static str; 7],
    numbers: &[u64; 7],
    out: &mut Vec<u8>,
) -> Result<(), NoMemory>
    ensures { OnOk result (out.new.items ≡ out.old.items ++ entries (map (λ w. w.now) words.now) numbers.now) }
{
    for place in 0..7 {
        write_entry(words[place], numbers[place], out)?;
    }
    Ok(())
}

/// Appends a word and a number.
fn write_entry<I: Integer>(word: &str, number: I, out: &mut Vec<u8>) -> Result<(), NoMemory>
    ensures { OnOk result (out.new.items ≡ out.old.items ++ (word.now ++ 32 ∷ I.text number ++ 10 ∷ [])) }
{
    let mut buffer = Buffer::new();
    append(out, word.as_bytes())?;
    append(out, b" ")?;
    append(out, buffer.format(number).as_bytes())?;
    append(out, b"\n")
}
