//! The top call.
ghost use Rattle.std.specs.Prelude.{◌≡◌, ◌≢◌, map, string_bytes, IfOk, MatchOption};
ghost use Rattle.tensor_ports.specs.Causes.{Rose};
ghost use Rattle.tool_runs.specs.Tools.{Leaves, refusal_text};
ghost use Rattle.dialect_runs.specs.DialectRuns.{AsksFor, HasForm, IsDialectRun};

use crate::answers::{answer_symbol, dialect_of};
use answer_writers::append_to;
use dialects::Dialect;
use std::alloc::Global;
use tensor_ports::{Sink, ToolEnd};
use tool_runs::{Kind, NoMemory, RefusalName, ToolRefusal, first_long, refusal_line, write_text};

/// What is written for other words.
const USAGE: &[u8] = b"usage: symbol_dialect short|long|schoenflies SYMBOL\n";

/// The dialect and the word that the words ask for.
fn asked(words: &[String]) -> Option<(Dialect, &[u8])>
    ensures { MatchOption result (HasForm (map string_bytes words.now) → ⊥) (λ a. AsksFor (map string_bytes words.now) a.0 a.1.now) }
{
    if words.len() != 2 {
        return None;
    }
    let to = dialect_of(words[0].as_bytes())?;
    Some((to, words[1].as_bytes()))
}

/// The refusal of the words.
fn refused(alloc: Global, refusal: ToolRefusal) -> Result<(Kind, Vec<u8>), NoMemory>
    ensures { IfOk result (λ r. (r.0 ≡ Kind.Refusal) × (r.1.items ≡ refusal_text refusal)) }
{
    Ok((Kind::Refusal, refusal_line(alloc, refusal)?))
}

/// The text for the words, and what it says to them.
fn reply(alloc: Global, words: &[String]) -> Result<(Kind, Vec<u8>), NoMemory>
    ensures { IfOk result (λ r. IsDialectRun (map string_bytes words.now) r.0 r.1.items) }
{
    let Some((to, symbol)) = asked(words) else {
        let mut usage = Vec::new(alloc);
        append_to(&mut usage, USAGE)?;
        return Ok((Kind::Usage, usage));
    };
    if let Some(word) = first_long(words) {
        return refused(
            alloc,
            ToolRefusal {
                word,
                column: 4001,
                name: RefusalName::Long,
            },
        );
    }
    match answer_symbol(alloc, to, symbol)? {
        Ok(text) => Ok((Kind::Answer, text)),
        Err(fault) => refused(
            alloc,
            ToolRefusal {
                word: 2,
                column: fault.column,
                name: fault.name,
            },
        ),
    }
}

/// Writes the text in a dialect of the symbol that a word names: the words are `short`, `long` or `schoenflies`, and
/// the word.
pub fn run_dialect<O: Sink>(alloc: Global, words: &[String], sink: &mut O) -> ToolEnd
    ensures leaves { Leaves (IsDialectRun (map string_bytes words.now)) result (O.written sink.old) (O.written sink.new) }
    ensures cause { result ≡ ToolEnd.WriteFault → Rose (O.faults sink.old) (O.faults sink.new) }

    // No fault is passed over.
    ensures calm { result ≢ ToolEnd.WriteFault → O.faults sink.new ≡ O.faults sink.old }
{
    match reply(alloc, words) {
        Ok((kind, text)) => write_text(kind, text.as_slice(), sink),
        Err(NoMemory) => ToolEnd::NoMemory,
    }
}
