//! The run over a source and a sink.
ghost use Rattle.std.specs.Prelude.{◌≡◌, ◌↔◌, ◌+◌, ◌<◌, ◌≤◌, ◌++◌, [], List, ℕ, length, IsTrue, IfOk, IfErr, IsErrOf, OnOk, vec_capacity, vec_len, true, false, MatchBool, ◌⊎◌};
ghost use Rattle.std.specs.Option.{IfSome};
ghost use Rattle.tensor_ports.specs.Causes.{Rose};
ghost use Rattle.line_runs.specs.Outcomes.{outcome_at};
ghost use Rattle.line_runs.specs.Runs.{Leaves, IsComplete};

use crate::buffer::{LineBuffer, More, first_break, read_more};
use crate::lines::{AnswersLines, format_at};
use crate::outcome::{Outcome, Stop, outcome_of};
use crate::waiting::{ROOM, add_answer, write_answer, write_waiting};
use std::alloc::Global;
use tensor_ports::{Sink, Source};
use text_defs::Format;

/// Whether no byte of a line was taken that isn't answered.
fn is_between(skipping: bool, held: &[u8]) -> bool
    ensures { MatchBool result ((skipping ≡ false) × (held.now ≡ [])) ((skipping ≡ true) ⊎ (0 < length held.now)) }
{
    !skipping && held.is_empty()
}

/// Answers the lines of the source. At the end of the input it tells whether a line was refused.
fn answer_all<A: AnswersLines, I: Source, O: Sink>(
    alloc: Global,
    limit: u64,
    source: &mut I,
    sink: &mut O,
) -> Result<bool, Stop>
    requires { limit ≤ 4294967296 }
    ensures leaves { IfSome (I.left source.old) (λ input.
        Leaves limit (outcome_at result) input (I.left source.new) (O.written sink.old) (O.written sink.new)) }
    ensures read { IsErrOf result Stop.Read → Rose (I.faults source.old) (I.faults source.new) }
    ensures write { IsErrOf result Stop.Write → Rose (O.faults sink.old) (O.faults sink.new) }
    ensures read_calm { (IsErrOf result Stop.Read → ⊥) → I.faults source.new ≡ I.faults source.old }
    ensures write_calm { (IsErrOf result Stop.Write → ⊥) → O.faults sink.new ≡ O.faults sink.old }
{
    let Ok(mut buffer) = LineBuffer::new(alloc) else {
        return Err(Stop::Memory);
    };
    let Ok(mut waiting) = Vec::with_capacity(alloc, ROOM) else {
        return Err(Stop::Memory);
    };
    let mut total = 0u64;
    let mut number = 1u64;
    let mut format = Format::One;
    let mut skipping = false;
    let mut refused = false;
    'reading: loop {
        match first_break(buffer.held()) {
            Some(at) => {
                let line = buffer.front(at);
                format = format_at(format, number, skipping, line);
                refused |= add_answer::<A, O>(
                    alloc,
                    format,
                    number,
                    skipping,
                    line,
                    &mut waiting,
                    sink,
                )?;
                buffer.remove(at + 1);
                number += 1;
                skipping = false;
            }
            None => {
                let Ok(()) = write_waiting(&mut waiting, sink) else {
                    return Err(Stop::Write);
                };
                skipping |= buffer.let_go();
                match read_more(&mut buffer, source, limit - total) {
                    Err(_) => return Err(Stop::Read),
                    Ok(More::Past) => return Err(Stop::Limit),
                    Ok(More::Bytes(count)) => total += count as u64,
                    Ok(More::End) => {
                        let held = buffer.held();
                        if is_between(skipping, held) {
                            return Ok(refused);
                        }
                        format = format_at(format, number, skipping, held);
                        let last = write_answer::<A, O>(
                            alloc,
                            format,
                            number,
                            skipping,
                            held,
                            &mut waiting,
                            sink,
                        )?;
                        return Ok(refused | last);
                    }
                }
            }
        }
    }
}

/// Answers the lines of the source, of which it takes at most this many bytes, and one more where there are more.
pub fn run_within<A: AnswersLines, I: Source, O: Sink>(
    alloc: Global,
    limit: u64,
    source: &mut I,
    sink: &mut O,
) -> Outcome
    requires { limit ≤ 4294967296 }

    // What is left and what was written, by the outcome.
    ensures leaves { IfSome (I.left source.old) (λ input.
        Leaves limit result input (I.left source.new) (O.written sink.old) (O.written sink.new)) }
    ensures read_cause { result ≡ Outcome.ReadFault → Rose (I.faults source.old) (I.faults source.new) }
    ensures write_cause { result ≡ Outcome.WriteFault → Rose (O.faults sink.old) (O.faults sink.new) }
    ensures no_usage { result ≡ Outcome.Usage → ⊥ }

    // No fault is passed over: a count rises only by the fault that ends the run.
    ensures read_calm { (result ≡ Outcome.ReadFault → ⊥) → I.faults source.new ≡ I.faults source.old }
    ensures write_calm { (result ≡ Outcome.WriteFault → ⊥) → O.faults sink.new ≡ O.faults sink.old }

    // Where nothing failed, it is one of the answers, or the limit, or want of memory.
    ensures complete { (Rose (I.faults source.old) (I.faults source.new) → ⊥) → (Rose (O.faults sink.old) (O.faults sink.new) → ⊥)
        → IfSome (I.left source.old) (λ input. IsComplete result limit input) }
{
    outcome_of(answer_all::<A, I, O>(alloc, limit, source, sink))
}
