//! The answer of a line.
ghost use Rattle.std.specs.Prelude.{◌≡◌, ◌+◌, ◌≤◌, ◌++◌, List, ℕ, length, IfErr, IfOk, OnErr, OnOk, IsOk, MatchBool, vec_len, vec_capacity, []};
ghost use Rattle.text_defs.specs.Requests as defs;
ghost use Rattle.text_defs.specs.Requests.{SpellsRequest, longest_line};
ghost use Rattle.text_defs.specs.Refusals.{IsHeading, IsPassed, heading};
ghost use Rattle.request_lines.specs.Readings.{Tells};
ghost use Rattle.line_runs.specs.Answering.{Ends, IsQuick};
ghost use Rattle.tensor_cli.specs.Kinds.{IsFreeOf, IsGrownBy, IsStop};

use crate::kinds::{differ, elements, forms, pairs, same, states, voigt};
use crate::stops::NoAnswer;
use line_runs::{
    AnswersLines, Format, LineEnd, NoMemory, Refusal, Word, is_heading_line, longest, refuse,
    refuse_long,
};
use request_lines::{Request, read_request};
use std::alloc::Global;

/// Whether a line is the first one and says that its input is in format 2.
fn is_heading(number: u64, line: &[u8]) -> bool
    ensures { MatchBool result ((number ≡ 1) × (line.now ≡ heading)) ((number ≡ 1) × (line.now ≡ heading) → ⊥) }
{
    if number != 1 {
        return false;
    }
    is_heading_line(line)
}

/// Whether a line is empty, or says that its input is in format 2.
fn says_nothing(format: Format, number: u64, line: &[u8]) -> bool
    ensures { MatchBool result (IsPassed format number line.now)
        ((line.now ≡ [] → ⊥) × (IsHeading format number line.now → ⊥)) }
{
    if line.is_empty() {
        return true;
    }
    match format {
        Format::One => false,
        Format::Two => is_heading(number, line),
    }
}

/// Appends the answer to a request that was read from the line, and tells how many free components its headers name; or tells
/// why there is none. After an error the list is as before.
pub fn try_answer(
    alloc: Global,
    format: Format,
    line: &[u8],
    request: &Request,
    out: &mut Vec<u8>,
) -> Result<usize, NoAnswer>
    requires short { length line.now ≤ longest_line format }
    requires read { (q : defs.Request) × SpellsRequest format line.now q × Tells line.now request.now q }
    requires other { request.now ≡ Request.Comment → ⊥ }
    ensures ok { OnOk result ((q : defs.Request) → SpellsRequest format line.now q → IsGrownBy q out.old.items out.new.items) }
    ensures free { IfOk result (λ n. (q : defs.Request) → SpellsRequest format line.now q → IsFreeOf q n) }
    ensures stop { IfErr result (λ e. (q : defs.Request) → SpellsRequest format line.now q → IsStop q e) }
    ensures err { OnErr result (out.new.items ≡ out.old.items) }
    ensures capacity { vec_capacity out.old ≤ vec_capacity out.new }
{
    match request {
        Request::Form { g, j } => forms(alloc, line, g, *j, out),
        Request::Group { g } => elements(alloc, g, out),
        Request::Voigt { g, j, weights } => voigt(alloc, line, g, *j, *weights, out),
        Request::States { g, f } => states(alloc, g, f, out),
        Request::Pairs { g, f } => pairs(alloc, g, f, out),
        Request::Differ { g, f, j } => differ(alloc, line, g, f, *j, out),
        Request::Same { g, h, j } => same(alloc, line, g, h, *j, out),
        Request::Comment => Err(NoAnswer::NoMemory),
    }
}

/// Appends the answer to a request that was read from the line, or its refusal. After `NoMemory` the list is as before.
fn answer_request(
    alloc: Global,
    format: Format,
    number: u64,
    line: &[u8],
    request: &Request,
    out: &mut Vec<u8>,
) -> Result<LineEnd, NoMemory>
    requires short { length line.now ≤ longest_line format }
    requires some { line.now ≡ [] → ⊥ }
    requires heading { IsHeading format number line.now → ⊥ }
    requires read { (q : defs.Request) × SpellsRequest format line.now q × Tells line.now request.now q }
    requires other { request.now ≡ Request.Comment → ⊥ }
    ensures ok { IfOk result (λ end. Ends format number line.now out.old.items out.new.items end) }
    ensures err { OnErr result (out.new.items ≡ out.old.items) }
    ensures slow { IsQuick format number line.now → ⊥ }
    ensures capacity { vec_capacity out.old ≤ vec_capacity out.new }
{
    match try_answer(alloc, format, line, request, out) {
        Ok(_) => Ok(LineEnd::Answered),
        Err(NoAnswer::Refused(refusal)) => {
            refuse(number, refusal, out)?;
            Ok(LineEnd::Refused)
        }
        Err(NoAnswer::NoMemory) => Err(NoMemory),
    }
}

/// What answers the lines of an input.
pub struct Answers;

impl AnswersLines for Answers {
    fn answer(
        alloc: Global,
        format: Format,
        number: u64,
        line: &[u8],
        out: &mut Vec<u8>,
    ) -> Result<LineEnd, NoMemory> {
        if says_nothing(format, number, line) {
            return Ok(LineEnd::Empty);
        }
        match read_request(format, line) {
            Err(fault) => {
                refuse(number, Refusal::at(Word::Syntax, fault.place), out)?;
                Ok(LineEnd::Refused)
            }
            Ok(Request::Comment) => Ok(LineEnd::Empty),
            Ok(request) => answer_request(alloc, format, number, line, &request, out),
        }
    }
}

/// Appends the answer of a line, or its refusal. A line that is too long is given by its first 1001 bytes in format 1, by
/// its first 4001 in format 2. After `NoMemory` the list is as before.
pub fn answer_line(
    alloc: Global,
    format: Format,
    number: u64,
    line: &[u8],
    out: &mut Vec<u8>,
) -> Result<LineEnd, NoMemory>
    requires { length line.now ≤ longest_line format + 1 }
    ensures ok { IfOk result (λ end. Ends format number line.now out.old.items out.new.items end) }
    ensures err { OnErr result (out.new.items ≡ out.old.items) }

    // With room for a refusal, a line that is passed, too long or no request takes no memory.
    ensures room { vec_len out.old + 96 ≤ vec_capacity out.old → IsQuick format number line.now → IsOk result }
    ensures capacity { vec_capacity out.old ≤ vec_capacity out.new }
{
    if line.len() > longest(format) {
        refuse_long(format, number, out)?;
        return Ok(LineEnd::Refused);
    }
    Answers::answer(alloc, format, number, line, out)
}
