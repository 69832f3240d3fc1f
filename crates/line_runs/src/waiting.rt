//! Answers that wait to be written: those of the lines that one read brought go out together.
ghost use Rattle.std.specs.Prelude.{◌≡◌, ◌↔◌, ◌<◌, ◌≤◌, ◌⊎◌, ◌++◌, [], List, ℕ, IsTrue, IfOk, IfErr, IsErrOf, OnOk, OnErr, vec_len, vec_capacity};
ghost use Rattle.tensor_ports.specs.Bytes.{Grows, GrowsInPart};
ghost use Rattle.tensor_ports.specs.Causes.{HasCause, Rose};
ghost use Rattle.line_runs.specs.Reads.{Stands};
ghost use Rattle.line_runs.specs.Answering.{Appends};
ghost use Rattle.text_defs.specs.Answers.{IsAnswer};
ghost use Rattle.text_defs.specs.Refusals.{IsRefused};
ghost use Rattle.line_runs.specs.Stops.{StopsAt, Waits};

use crate::lines::{AnswersLines, make_answer};
use crate::outcome::Stop;
use std::alloc::Global;
use tensor_ports::{Sink, SinkFailed, write_all_of};
use text_defs::Format;

/// How many bytes of answers are written at once, if not before.
const FULL: usize = 8192;

/// Room for them, and for the text of a refusal.
pub const ROOM: usize = 8288;

/// Writes what waits, after which nothing does.
pub fn write_waiting<O: Sink>(waiting: &mut Vec<u8>, sink: &mut O) -> Result<(), SinkFailed>
    ensures ok { OnOk result (Grows (O.written sink.old) (O.written sink.new) waiting.old.items) }
    ensures none { OnOk result (waiting.new.items ≡ []) }
    ensures few { OnOk result (vec_len waiting.new < 8192) }
    ensures err { OnErr result (GrowsInPart (O.written sink.old) (O.written sink.new) waiting.old.items) }
    ensures cause { HasCause (O.faults sink.old) (O.faults sink.new) result }
    ensures calm { OnOk result (O.faults sink.new ≡ O.faults sink.old) }
    ensures capacity { vec_capacity waiting.old ≤ vec_capacity waiting.new }
{
    write_all_of(sink, waiting)?;
    waiting.clear();
    Ok(())
}

/// Writes what waits where it is much.
fn write_much<O: Sink>(waiting: &mut Vec<u8>, sink: &mut O) -> Result<(), SinkFailed>
    ensures ok { OnOk result (Waits waiting.old.items waiting.new.items (O.written sink.old) (O.written sink.new)) }
    ensures few { OnOk result (vec_len waiting.new < 8192) }
    ensures err { OnErr result (GrowsInPart (O.written sink.old) (O.written sink.new) waiting.old.items) }
    ensures cause { HasCause (O.faults sink.old) (O.faults sink.new) result }
    ensures calm { OnOk result (O.faults sink.new ≡ O.faults sink.old) }
    ensures capacity { vec_capacity waiting.old ≤ vec_capacity waiting.new }
{
    if waiting.len() < FULL {
        return Ok(());
    }
    write_waiting(waiting, sink)
}

/// Adds the answer of a line to those that wait. Tells whether the line is refused. Where memory is refused, what waited is
/// written.
pub fn add_answer<A: AnswersLines, O: Sink>(
    alloc: Global,
    format: Format,
    number: u64,
    is_long: bool,
    line: &[u8],
    waiting: &mut Vec<u8>,
    sink: &mut O,
) -> Result<bool, Stop>
    requires room { 8288 ≤ vec_capacity waiting.old }
    requires few { vec_len waiting.old < 8192 }
    ensures ok { OnOk result ((all : List ℕ) × Appends format number is_long line.now waiting.old.items all
        × Waits all waiting.new.items (O.written sink.old) (O.written sink.new)) }
    ensures refused { IfOk result (λ refused. (whole : List ℕ) → Stands is_long line.now whole → (IsTrue refused ↔ IsRefused format number whole)) }
    ensures err { IfErr result (λ stop. StopsAt stop format number is_long line.now waiting.old.items (O.written sink.old) (O.written sink.new)) }
    ensures calm { IfErr result (λ stop. stop ≡ Stop.Memory → O.faults sink.new ≡ O.faults sink.old) }
    ensures quiet { OnOk result (O.faults sink.new ≡ O.faults sink.old) }
    ensures rose { IsErrOf result Stop.Write → Rose (O.faults sink.old) (O.faults sink.new) }
    ensures room { 8288 ≤ vec_capacity waiting.new }
    ensures still_few { OnOk result (vec_len waiting.new < 8192) }
{
    match make_answer::<A>(alloc, format, number, is_long, line, waiting) {
        Ok(refused) => match write_much(waiting, sink) {
            Ok(()) => Ok(refused),
            Err(_) => Err(Stop::Write),
        },
        Err(_) => match write_waiting(waiting, sink) {
            Ok(()) => Err(Stop::Memory),
            Err(_) => Err(Stop::Write),
        },
    }
}

/// Makes the answer of a line, and writes it. Tells whether the line is refused.
pub fn write_answer<A: AnswersLines, O: Sink>(
    alloc: Global,
    format: Format,
    number: u64,
    is_long: bool,
    line: &[u8],
    waiting: &mut Vec<u8>,
    sink: &mut O,
) -> Result<bool, Stop>
    requires room { 8288 ≤ vec_capacity waiting.old }
    requires none { waiting.old.items ≡ [] }
    ensures ok { OnOk result ((answer : List ℕ) × Grows (O.written sink.old) (O.written sink.new) answer
        × ((whole : List ℕ) → Stands is_long line.now whole → IsAnswer format number whole answer)) }
    ensures refused { IfOk result (λ refused. (whole : List ℕ) → Stands is_long line.now whole → (IsTrue refused ↔ IsRefused format number whole)) }
    ensures err { IfErr result (λ stop. StopsAt stop format number is_long line.now [] (O.written sink.old) (O.written sink.new)) }
    ensures calm { IfErr result (λ stop. stop ≡ Stop.Memory → O.faults sink.new ≡ O.faults sink.old) }
    ensures quiet { OnOk result (O.faults sink.new ≡ O.faults sink.old) }
    ensures rose { IsErrOf result Stop.Write → Rose (O.faults sink.old) (O.faults sink.new) }
{
    match make_answer::<A>(alloc, format, number, is_long, line, waiting) {
        Ok(refused) => match write_waiting(waiting, sink) {
            Ok(()) => Ok(refused),
            Err(_) => Err(Stop::Write),
        },
        Err(_) => Err(Stop::Memory),
    }
}
