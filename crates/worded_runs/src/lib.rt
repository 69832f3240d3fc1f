//! Runs that words of the command line ask for.
#![tactic(auto)]

ghost use Rattle.std.specs.Prelude.{◌≡◌, map, string_bytes};
ghost use Rattle.tensor_ports.specs.Causes.{Rose};
ghost use Rattle.run_words.specs.declared.Generate as words_of;
ghost use Rattle.run_words.specs.Words.{IsAccepted};
ghost use Rattle.worded_runs.specs.Asked.{AreRefused, IsUnstarted, IsWhole, LeavesAsked};

#[cfg(test)]
mod tests;

use generated_runs::{Answers, Stop, run_generated};
use line_runs::Outcome;
use run_words::read_words;
use std::alloc::Global;
use tensor_ports::Sink;

/// Makes the run that the words ask for, and writes its summary.
pub fn run_asked<A: Answers, O: Sink>(
    alloc: Global,
    words: &[String],
    answers: &mut A,
    sink: &mut O,
) -> Outcome
    ensures leaves { LeavesAsked A.becomes (map string_bytes words.now) result (O.written sink.old) (O.written sink.new) }

    // Words that aren't accepted never start a run, whether or not memory is there.
    ensures refused { AreRefused (map string_bytes words.now) → IsUnstarted result × (sink.new ≡ sink.old) }
    ensures usage { result ≡ Outcome.Usage → sink.new ≡ sink.old }
    ensures memory { result ≡ Outcome.NoMemory → sink.new ≡ sink.old }
    ensures write_cause { result ≡ Outcome.WriteFault → Rose (O.faults sink.old) (O.faults sink.new) }
    ensures steady { (result ≡ Outcome.WriteFault → ⊥) → O.faults sink.new ≡ O.faults sink.old }
    ensures complete { (Rose (O.faults sink.old) (O.faults sink.new) → ⊥) → (run : words_of.Generate)
        → IsAccepted (map string_bytes words.now) run → IsWhole result }
{
    match read_words(alloc, words) {
        Err(_) => Outcome::NoMemory,
        Ok(None) => Outcome::Usage,
        Ok(Some(run)) => match run_generated(alloc, run.count, run.seed, answers, sink) {
            Ok(false) => Outcome::Answered,
            Ok(true) => Outcome::SomeRefused,
            Err(Stop::Write) => Outcome::WriteFault,
            Err(Stop::Memory) => Outcome::NoMemory,
        },
    }
}
