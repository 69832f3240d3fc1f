//! The run of the program on its words.
ghost use Rattle.std.specs.Prelude.{◌≡◌, ◌≢◌, ◌∷◌, [], IfErr, IfOk, length, map, string_bytes};
ghost use Rattle.tensor_defs.specs.Frames.{IsFramed};
ghost use Rattle.tensor_defs.specs.Group.{InGroup, IsAccepted};
ghost use Rattle.tensor_defs.specs.Lists.{IsListing};
ghost use Rattle.tensor_defs.specs.OperationOrder.{comes_before};
ghost use Rattle.tensor_ports.specs.Causes.{Rose};
ghost use Rattle.magnetic_groups.specs.Sets.{In};
ghost use Rattle.tool_runs.specs.Tools.{Leaves, NoneLong};
ghost use Rattle.species_runs.specs.SpeciesWords.{AreSpelled, IsSpeciesAnswer, usage_text};
ghost use Rattle.species_runs.specs.Stops.{IsAnswered, IsStop};

use crate::answers::{NoText, answer_groups};
use group_symbol::{SymbolTree, read_group};
use magnetic_groups::{GroupFault, build_group};
use std::alloc::Global;
use tensor_ports::Sink;
use text_laws::one_group_symbol;
use tool_runs::{
    Kind, NoMemory, RefusalName, ToolEnd, ToolRefusal, first_long, refusal_line, write_text,
};

/// Why words have no answer.
#[derive(Clone, Copy, Debug, PartialEq, Eq, Drop)]
pub(crate) enum Stop {
    Refused(ToolRefusal),
    NoMemory,
}

/// A refusal of a word.
fn refused(word: usize, column: usize, name: RefusalName) -> Stop
    ensures { result ≡ Stop.Refused (record { word = word; column = column; name = name }) }
{
    Stop::Refused(ToolRefusal { word, column, name })
}

/// The answer to two symbols, which the texts of the words spell.
fn answer_symbols(
    alloc: Global,
    group: &[u8],
    subgroup: &[u8],
    g: &SymbolTree,
    f: &SymbolTree,
) -> Result<Vec<u8>, Stop>
    requires { AreSpelled (group.now ∷ subgroup.now ∷ []) g.now f.now }
    ensures text { IfOk result (λ text. IsAnswered (group.now ∷ subgroup.now ∷ []) text.items) }
    ensures stop { IfErr result (IsStop (group.now ∷ subgroup.now ∷ [])) }
{
    one_group_symbol();
    let whole = match build_group(alloc, g) {
        Ok(whole) => whole,
        Err(GroupFault::Primes) => return Err(refused(1, 1, RefusalName::Primes)),
        Err(GroupFault::NoMemory) => return Err(Stop::NoMemory),
    };
    let sub = match build_group(alloc, f) {
        Ok(sub) => sub,
        Err(GroupFault::Primes) => return Err(refused(2, 1, RefusalName::Primes)),
        Err(GroupFault::NoMemory) => return Err(Stop::NoMemory),
    };
    match answer_groups(alloc, g, f, whole, sub) {
        Ok(text) => Ok(text),
        Err(NoText::Refused(name)) => Err(refused(2, 1, name)),
        Err(NoText::NoMemory) => Err(Stop::NoMemory),
    }
}

/// The answer to the texts of two words.
fn answer_texts(alloc: Global, group: &[u8], subgroup: &[u8]) -> Result<Vec<u8>, Stop>
    requires { NoneLong (group.now ∷ subgroup.now ∷ []) }
    ensures text { IfOk result (λ text. IsAnswered (group.now ∷ subgroup.now ∷ []) text.items) }
    ensures stop { IfErr result (IsStop (group.now ∷ subgroup.now ∷ [])) }
{
    let g = match read_group(group) {
        Ok(g) => g,
        Err(fault) => return Err(refused(1, fault.place + 1, RefusalName::Syntax)),
    };
    let f = match read_group(subgroup) {
        Ok(f) => f,
        Err(fault) => return Err(refused(2, fault.place + 1, RefusalName::Syntax)),
    };
    answer_symbols(alloc, group, subgroup, &g, &f)
}

/// The answer to two words.
fn answer_words(alloc: Global, words: &[String]) -> Result<Vec<u8>, Stop>
    requires { length words.now ≡ 2 }
    ensures text { IfOk result (λ text. IsAnswered (map string_bytes words.now) text.items) }
    ensures stop { IfErr result (IsStop (map string_bytes words.now)) }
{
    if let Some(word) = first_long(words) {
        return Err(refused(word, 4001, RefusalName::Long));
    }
    answer_texts(alloc, words[0].as_bytes(), words[1].as_bytes())
}

/// How the program is used.
fn usage() -> &'static [u8]
    ensures { result.now ≡ usage_text }
{
    b"usage: ferroic_species GROUP SUBGROUP\n"
}

/// The text for the words, and what it says to them.
fn text_for(alloc: Global, words: &[String]) -> Result<(Kind, Vec<u8>), NoMemory>
    ensures { IfOk result (λ x. IsSpeciesAnswer (map string_bytes words.now) x.0 x.1.items) }
{
    if words.len() != 2 {
        return match Vec::from_slice(alloc, usage()) {
            Ok(text) => Ok((Kind::Usage, text)),
            Err(_) => Err(NoMemory),
        };
    }
    match answer_words(alloc, words) {
        Ok(text) => Ok((Kind::Answer, text)),
        Err(Stop::Refused(refusal)) => Ok((Kind::Refusal, refusal_line(alloc, refusal)?)),
        Err(Stop::NoMemory) => Err(NoMemory),
    }
}

/// Answers a group and a subgroup: writes which of the domain states polarisation, strain and magnetisation tell apart, or
/// the first refusal that applies, or, where the words aren't two, how the program is used. `WriteFault` only where the
/// sink's faults rose; a front of the text is written then. `NoMemory` where memory was refused; nothing is written then.
pub fn run_species<O: Sink>(alloc: Global, words: &[String], sink: &mut O) -> ToolEnd
    ensures leaves { Leaves (IsSpeciesAnswer (map string_bytes words.now)) result (O.written sink.old) (O.written sink.new) }
    ensures cause { result ≡ ToolEnd.WriteFault → Rose (O.faults sink.old) (O.faults sink.new) }

    // No fault is passed over.
    ensures calm { result ≢ ToolEnd.WriteFault → O.faults sink.new ≡ O.faults sink.old }
{
    match text_for(alloc, words) {
        Ok((kind, text)) => write_text(kind, &text, sink),
        Err(NoMemory) => ToolEnd::NoMemory,
    }
}
