//! The top call.
ghost use Rattle.std.specs.Prelude.{◌≡◌, ◌≤◌, [], map, string_bytes};
ghost use Rattle.std.specs.Option.{IfSome};
ghost use Rattle.tensor_ports.specs.Causes.{Rose};
ghost use Rattle.line_runs.specs.Runs.{Leaves, IsComplete};
ghost use Rattle.run_words.specs.declared.Generate as words_of;
ghost use Rattle.run_words.specs.Words.{IsAccepted};
ghost use Rattle.generated_runs.specs.Told.{Becomes};
ghost use Rattle.worded_runs.specs.Asked.{AreRefused, IsUnstarted, IsWhole, LeavesAsked};

use crate::answers::Answers;
use crate::told::Teller;
use line_runs::Outcome;
use std::alloc::Global;
use tensor_ports::{Sink, Source};
use worded_runs::run_asked;

/// The most bytes of an input: 2^32.
const LIMIT: u64 = 4294967296;

/// Answers the lines of the source, of which it takes at most this many bytes, and one more where there are more.
pub fn run_within<I: Source, O: Sink>(
    alloc: Global,
    limit: u64,
    source: &mut I,
    sink: &mut O,
) -> Outcome
    requires { limit ≤ 4294967296 }

    // What is left and what was written, by the outcome.
    ensures leaves { IfSome (I.left source.old) (λ input.
        Leaves limit result input (I.left source.new) (O.written sink.old) (O.written sink.new)) }
    ensures read_cause { result ≡ Outcome.ReadFault → Rose (I.faults source.old) (I.faults source.new) }
    ensures write_cause { result ≡ Outcome.WriteFault → Rose (O.faults sink.old) (O.faults sink.new) }
    ensures no_usage { result ≡ Outcome.Usage → ⊥ }

    // No fault is passed over: a count rises only by the fault that ends the run.
    ensures read_calm { (result ≡ Outcome.ReadFault → ⊥) → I.faults source.new ≡ I.faults source.old }
    ensures write_calm { (result ≡ Outcome.WriteFault → ⊥) → O.faults sink.new ≡ O.faults sink.old }

    // Where nothing failed, it is one of the answers, or the limit, or want of memory.
    ensures complete { (Rose (I.faults source.old) (I.faults source.new) → ⊥) → (Rose (O.faults sink.old) (O.faults sink.new) → ⊥)
        → IfSome (I.left source.old) (λ input. IsComplete result limit input) }
{
    line_runs::run_within::<Answers, I, O>(alloc, limit, source, sink)
}

/// Answers the lines of the source; with words, makes the generated run that they ask for, and reads nothing.
pub fn run<I: Source, O: Sink>(
    alloc: Global,
    words: &[String],
    source: &mut I,
    sink: &mut O,
) -> Outcome
    // Without words: what is left and what was written, by the outcome.
    ensures leaves { words.now ≡ [] → IfSome (I.left source.old) (λ input.
        Leaves 4294967296 result input (I.left source.new) (O.written sink.old) (O.written sink.new)) }
    ensures read_cause { result ≡ Outcome.ReadFault → Rose (I.faults source.old) (I.faults source.new) }
    ensures write_cause { result ≡ Outcome.WriteFault → Rose (O.faults sink.old) (O.faults sink.new) }
    ensures no_usage { words.now ≡ [] → result ≡ Outcome.Usage → ⊥ }

    // No fault is passed over: a count rises only by the fault that ends the run.
    ensures read_calm { (result ≡ Outcome.ReadFault → ⊥) → I.faults source.new ≡ I.faults source.old }
    ensures write_calm { (result ≡ Outcome.WriteFault → ⊥) → O.faults sink.new ≡ O.faults sink.old }

    // Where nothing failed, it is one of the answers, or the limit, or want of memory.
    ensures complete { words.now ≡ [] → (Rose (I.faults source.old) (I.faults source.new) → ⊥) → (Rose (O.faults sink.old) (O.faults sink.new) → ⊥)
        → IfSome (I.left source.old) (λ input. IsComplete result 4294967296 input) }

    // With words: nothing is read, and the summary of the run that they ask for is written, or a front of it, or nothing.
    ensures unread { (words.now ≡ [] → ⊥) → source.new ≡ source.old }
    ensures worded { (words.now ≡ [] → ⊥) → LeavesAsked Becomes (map string_bytes words.now) result (O.written sink.old) (O.written sink.new) }

    // Words that aren't accepted start nothing, and are told apart from those that are, unless memory is wanting.
    ensures usage { (words.now ≡ [] → ⊥) → AreRefused (map string_bytes words.now) → IsUnstarted result × (sink.new ≡ sink.old) }
    ensures memory { (words.now ≡ [] → ⊥) → result ≡ Outcome.NoMemory → sink.new ≡ sink.old }

    // Accepted words end in the whole summary or want of memory, where no write failed.
    ensures whole { (words.now ≡ [] → ⊥) → (Rose (O.faults sink.old) (O.faults sink.new) → ⊥) → (run : words_of.Generate)
        → IsAccepted (map string_bytes words.now) run → IsWhole result }
{
    if !words.is_empty() {
        return run_asked(alloc, words, &mut Teller::new(alloc), sink);
    }
    run_within(alloc, LIMIT, source, sink)
}
