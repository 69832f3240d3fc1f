//! The answer of one line.
ghost use Rattle.std.specs.Prelude.{◌≡◌, ◌↔◌, ◌+◌, ◌<◌, ◌≤◌, ◌++◌, List, ℕ, length, IfOk, OnOk, OnErr, IsOk, IsTrue, MatchBool, false, vec_len, vec_capacity};
ghost use Rattle.text_defs.specs.Answers.{IsAnswer};
ghost use Rattle.tensor_defs.specs.Lists.{same_numbers_in};
ghost use Rattle.text_defs.specs.Refusals.{IsRefused, heading, refusal_text};
ghost use Rattle.text_defs.specs.Requests.{longest_line};
ghost use Rattle.line_runs.specs.Answering.{Appends, Ends, IsQuick, IsTold};
ghost use Rattle.line_runs.specs.Reads.{Stands};
ghost use Rattle.line_runs.specs.Words.{word_of};

use crate::refusals::{Refusal, longest};
use std::alloc::Global;
use tensor_ports::NoMemory;
use text_defs::Format;

/// How the answer of a line ended.
#[derive(Clone, Copy, Debug, PartialEq, Eq, Drop)]
pub enum LineEnd {
    Empty,
    Answered,
    Refused,
}

/// What answers a line.
pub trait AnswersLines {
    /// Appends the answer of a line that isn't too long, or its refusal. After `NoMemory` the list is as before.
    fn answer(
        alloc: Global,
        format: Format,
        number: u64,
        line: &[u8],
        out: &mut Vec<u8>,
    ) -> Result<LineEnd, NoMemory>
        requires { length line.now ≤ longest_line format }
        ensures ok { IfOk result (λ end. Ends format number line.now out.old.items out.new.items end) }
        ensures err { OnErr result (out.new.items ≡ out.old.items) }

        // With room for a refusal, a line that is passed or no request takes no memory.
        ensures room { vec_len out.old + 96 ≤ vec_capacity out.old → IsQuick format number line.now → IsOk result }
        ensures capacity { vec_capacity out.old ≤ vec_capacity out.new };
}

/// Appends a refusal. After `NoMemory` the list is as before.
pub fn refuse(number: u64, refusal: Refusal, out: &mut Vec<u8>) -> Result<(), NoMemory>
    ensures ok { OnOk result (out.new.items ≡ out.old.items ++ refusal_text number refusal.column (word_of refusal.word)) }
    ensures err { OnErr result (out.new.items ≡ out.old.items) }
    ensures room { vec_len out.old + 96 ≤ vec_capacity out.old → IsOk result }
    ensures capacity { vec_capacity out.old ≤ vec_capacity out.new }
{
    let text = refusal.text(*out.allocator(), number);
    match out.extend_from_slice(text.as_slice()) {
        Ok(()) => Ok(()),
        Err(_) => Err(NoMemory),
    }
}

/// Appends the refusal of a line that is too long in the format. After `NoMemory` the list is as before.
pub fn refuse_long(format: Format, number: u64, out: &mut Vec<u8>) -> Result<(), NoMemory>
    ensures ok { OnOk result ((answer : List ℕ) × (out.new.items ≡ out.old.items ++ answer)
        × ((line : List ℕ) → longest_line format < length line → IsAnswer format number line answer)) }
    ensures err { OnErr result (out.new.items ≡ out.old.items) }
    ensures room { vec_len out.old + 96 ≤ vec_capacity out.old → IsOk result }
    ensures capacity { vec_capacity out.old ≤ vec_capacity out.new }
{
    refuse(number, Refusal::long(format), out)
}

/// The first line of an input in format 2.
const HEADING: &[u8] = b"format 2";

/// Whether a line is the one that, where it is the first, says that its input is in format 2.
pub fn is_heading_line(line: &[u8]) -> bool
    ensures { MatchBool result (line.now ≡ heading) (line.now ≡ heading → ⊥) }
{
    line == HEADING
}

/// Whether a line says that its input is in format 2.
fn tells_two(is_long: bool, line: &[u8]) -> bool
    ensures { (whole : List ℕ) → Stands is_long line.now whole → same_numbers_in whole heading ≡ result }
{
    if is_long {
        return false;
    }
    is_heading_line(line)
}

/// The format of an input at a line, from what the lines before it told.
pub fn format_at(before: Format, number: u64, is_long: bool, line: &[u8]) -> Format
    ensures { (whole : List ℕ) → Stands is_long line.now whole → IsTold number before whole result }
{
    if number != 1 {
        return before;
    }
    if tells_two(is_long, line) {
        Format::Two
    } else {
        Format::One
    }
}

/// Whether a line is too long in the format.
fn is_too_long(format: Format, is_long: bool, line: &[u8]) -> bool
    ensures { MatchBool result ((whole : List ℕ) → Stands is_long line.now whole → longest_line format < length whole)
        ((is_long ≡ false) × (length line.now ≤ longest_line format)) }
{
    if is_long {
        return true;
    }
    line.len() > longest(format)
}

/// Appends the answer of a line, or of a line that is too long in each format of which only the end is at hand.
/// Tells whether it is refused. After `NoMemory` the list is as before.
pub fn make_answer<A: AnswersLines>(
    alloc: Global,
    format: Format,
    number: u64,
    is_long: bool,
    line: &[u8],
    out: &mut Vec<u8>,
) -> Result<bool, NoMemory>
    requires room { vec_len out.old + 96 ≤ vec_capacity out.old }
    ensures answer { OnOk result (Appends format number is_long line.now out.old.items out.new.items) }
    ensures refused { IfOk result (λ refused. (whole : List ℕ) → Stands is_long line.now whole → (IsTrue refused ↔ IsRefused format number whole)) }
    ensures memory { OnErr result ((whole : List ℕ) → Stands is_long line.now whole → IsQuick format number whole → ⊥) }
    ensures err { OnErr result (out.new.items ≡ out.old.items) }
    ensures capacity { vec_capacity out.old ≤ vec_capacity out.new }
{
    if is_too_long(format, is_long, line) {
        refuse_long(format, number, out)?;
        return Ok(true);
    }
    let end = A::answer(alloc, format, number, line, out)?;
    Ok(end == LineEnd::Refused)
}
