//! The run of the program on its words.
ghost use Rattle.std.specs.Prelude.{◌≡◌, ◌≢◌, ◌∷◌, [], IfErr, IfOk, length, map, string_bytes};
ghost use Rattle.tensor_ports.specs.Causes.{Rose};
ghost use Rattle.tool_runs.specs.Tools.{Leaves, NoneLong};
ghost use Rattle.curie_runs.specs.CurieWords.{IsCurieAnswer, usage_text};
ghost use Rattle.curie_runs.specs.Stops.{IsAnswered, IsStop};

use crate::answers::answer_curie;
use crate::memory::NoMemory;
use crate::names::read_curie;
use jahn_grammar::{JahnFault, read_jahn};
use limiting_groups::SolveFault;
use std::alloc::Global;
use tensor_ports::Sink;
use text_laws::one_jahn_symbol;
use tool_runs::{Kind, RefusalName, ToolEnd, ToolRefusal, first_long, refusal_line, write_text};

/// Why words have no table.
#[derive(Clone, Copy, Debug, PartialEq, Eq, Drop)]
pub(crate) enum Stop {
    Refused(ToolRefusal),
    NoMemory,
}

/// A refusal of a word.
fn refused(word: usize, column: usize, name: RefusalName) -> Stop
    ensures { result ≡ Stop.Refused (record { word = word; column = column; name = name }) }
{
    Stop::Refused(ToolRefusal { word, column, name })
}

/// The answer to the texts of a group and of a symbol.
fn answer_symbols(alloc: Global, group: &[u8], symbol: &[u8]) -> Result<Vec<u8>, Stop>
    requires { NoneLong (group.now ∷ symbol.now ∷ []) }
    ensures text { IfOk result (λ text. IsAnswered (group.now ∷ symbol.now ∷ []) text.items) }
    ensures stop { IfErr result (IsStop (group.now ∷ symbol.now ∷ [])) }
{
    one_jahn_symbol();
    let limiting = match read_curie(group) {
        Ok(limiting) => limiting,
        Err(fault) => return Err(refused(1, fault.place + 1, RefusalName::Syntax)),
    };
    let jahn = match read_jahn(alloc, symbol) {
        Ok(jahn) => jahn,
        Err(JahnFault::Syntax { place }) => {
            return Err(refused(2, place + 1, RefusalName::Syntax));
        }
        Err(JahnFault::Rank) => return Err(refused(2, 1, RefusalName::Rank)),
        Err(JahnFault::NoMemory) => return Err(Stop::NoMemory),
    };
    match answer_curie(alloc, limiting, &jahn) {
        Ok(text) => Ok(text),
        Err(SolveFault::TooLarge) => Err(refused(2, 1, RefusalName::TooLarge)),
        Err(SolveFault::NoMemory) => Err(Stop::NoMemory),
    }
}

/// The answer to two words.
fn answer_words(alloc: Global, words: &[String]) -> Result<Vec<u8>, Stop>
    requires { length words.now ≡ 2 }
    ensures text { IfOk result (λ text. IsAnswered (map string_bytes words.now) text.items) }
    ensures stop { IfErr result (IsStop (map string_bytes words.now)) }
{
    if let Some(word) = first_long(words) {
        return Err(refused(word, 4001, RefusalName::Long));
    }
    answer_symbols(alloc, words[0].as_bytes(), words[1].as_bytes())
}

/// How the program is used.
fn usage() -> &'static [u8]
    ensures { result.now ≡ usage_text }
{
    b"usage: curie_axis GROUP JAHN\n"
}

/// The text for the words, and what it says to them.
fn text_for(alloc: Global, words: &[String]) -> Result<(Kind, Vec<u8>), NoMemory>
    ensures { IfOk result (λ x. IsCurieAnswer (map string_bytes words.now) x.0 x.1.items) }
{
    if words.len() != 2 {
        return Ok((Kind::Usage, Vec::from_slice(alloc, usage())?));
    }
    match answer_words(alloc, words) {
        Ok(text) => Ok((Kind::Answer, text)),
        Err(Stop::Refused(refusal)) => Ok((Kind::Refusal, refusal_line(alloc, refusal)?)),
        Err(Stop::NoMemory) => Err(NoMemory),
    }
}

/// Answers a limiting group and a Jahn symbol: writes the component table, or the first refusal that applies, or, where
/// the words aren't two, how the program is used. `WriteFault` only where the sink's faults rose; a front of the text is
/// written then. `NoMemory` where memory was refused; nothing is written then.
pub fn run_curie<O: Sink>(alloc: Global, words: &[String], sink: &mut O) -> ToolEnd
    ensures leaves { Leaves (IsCurieAnswer (map string_bytes words.now)) result (O.written sink.old) (O.written sink.new) }
    ensures cause { result ≡ ToolEnd.WriteFault → Rose (O.faults sink.old) (O.faults sink.new) }

    // No fault is passed over.
    ensures calm { result ≢ ToolEnd.WriteFault → O.faults sink.new ≡ O.faults sink.old }
{
    match text_for(alloc, words) {
        Ok((kind, text)) => write_text(kind, &text, sink),
        Err(NoMemory) => ToolEnd::NoMemory,
    }
}
