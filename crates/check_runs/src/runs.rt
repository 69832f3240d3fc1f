//! The run of the program on its words.
ghost use Rattle.std.specs.Prelude.{◌≡◌, ◌≢◌, ◌≤◌, ◌∷◌, IfErr, IfOk, length, map, string_bytes};
ghost use Rattle.tensor_defs.specs.Group.{InGroup};
ghost use Rattle.tensor_defs.specs.Jahn.{rank};
ghost use Rattle.tensor_defs.specs.Lists.{IsListing};
ghost use Rattle.tensor_defs.specs.OperationOrder.{comes_before};
ghost use Rattle.jahn_grammar.specs.Symbols.{symbol_of};
ghost use Rattle.tensor_ports.specs.Causes.{Rose};
ghost use Rattle.tensor_rank.specs.Shapes.{IsShapeOf};
ghost use Rattle.tool_runs.specs.Tools.{Leaves, NoneLong};
ghost use Rattle.check_runs.specs.CheckWords.{IsCheckAnswer, usage_text};
ghost use Rattle.check_runs.specs.Stops.{IsAnswered, IsAnsweredGiven, IsStop, IsStopGiven};

use crate::given::{given_tensor, read_settings};
use crate::memory::NoMemory;
use crate::stops::{Stop, refused};
use crate::texts::answer_at;
use group_symbol::{SymbolTree, read_group};
use jahn_grammar::{Jahn, JahnFault, read_jahn, scan_jahn};
use magnetic_groups::{Group, GroupFault, build_group};
use number_words::one_number;
use std::alloc::Global;
use tensor_ports::{Sink, ToolEnd};
use tensor_rank::{Rank, Shape, at_rank, compile};
use text_laws::{one_group_symbol, one_jahn_symbol};
use tool_runs::{Kind, RefusalName, first_long, refusal_line, write_text};

/// The answer to the later words at a rank.
fn answer_given<R: Rank>(
    alloc: Global,
    tree: &SymbolTree,
    group: &Group,
    jahn: &Jahn,
    shape: &Shape<R>,
    later: &[String],
) -> Result<Vec<u8>, Stop>
    requires shape { IsShapeOf (symbol_of jahn.now) R.R shape.now }
    requires elements { IsListing comes_before (InGroup tree.now) group.now }
    ensures text { IfOk result (λ text. IsAnsweredGiven tree.now (symbol_of jahn.now) (map string_bytes later.now) text.items) }
    ensures stop { IfErr result (IsStopGiven tree.now (symbol_of jahn.now) (map string_bytes later.now)) }
{
    one_number();
    let settings = match read_settings::<R>(alloc, later) {
        Ok(settings) => settings,
        Err(stop) => return Err(stop),
    };
    let t = match given_tensor::<R>(alloc, &settings) {
        Ok(t) => t,
        Err(stop) => return Err(stop),
    };
    answer_at(alloc, tree, group, jahn, shape, &t)
}

/// The answer to the later words, for a group and a symbol that are fit.
fn answer_fit(
    alloc: Global,
    tree: &SymbolTree,
    group: &Group,
    jahn: &Jahn,
    later: &[String],
) -> Result<Vec<u8>, Stop>
    requires small { rank (symbol_of jahn.now) ≤ 6 }
    requires elements { IsListing comes_before (InGroup tree.now) group.now }
    ensures text { IfOk result (λ text. IsAnsweredGiven tree.now (symbol_of jahn.now) (map string_bytes later.now) text.items) }
    ensures stop { IfErr result (IsStopGiven tree.now (symbol_of jahn.now) (map string_bytes later.now)) }
{
    match compile(alloc, jahn) {
        Ok(shape) => at_rank!(shape, s => answer_given(alloc, tree, group, jahn, &s, later)),
        Err(_) => Err(Stop::NoMemory),
    }
}

/// The answer to the texts of a group and of a symbol, and to the words behind them.
fn answer_symbols(
    alloc: Global,
    group: &[u8],
    symbol: &[u8],
    later: &[String],
) -> Result<Vec<u8>, Stop>
    requires { NoneLong (group.now ∷ symbol.now ∷ map string_bytes later.now) }
    ensures text { IfOk result (λ text. IsAnswered (group.now ∷ symbol.now ∷ map string_bytes later.now) text.items) }
    ensures stop { IfErr result (IsStop (group.now ∷ symbol.now ∷ map string_bytes later.now)) }
{
    one_group_symbol();
    one_jahn_symbol();
    let tree = match read_group(group) {
        Ok(tree) => tree,
        Err(fault) => return Err(refused(1, fault.place + 1, RefusalName::Syntax)),
    };
    if let Err(fault) = scan_jahn(symbol) {
        return Err(refused(2, fault.place + 1, RefusalName::Syntax));
    }
    let elements = match build_group(alloc, &tree) {
        Ok(elements) => elements,
        Err(GroupFault::Primes) => return Err(refused(1, 1, RefusalName::Primes)),
        Err(GroupFault::NoMemory) => return Err(Stop::NoMemory),
    };
    let jahn = match read_jahn(alloc, symbol) {
        Ok(jahn) => jahn,
        Err(JahnFault::Syntax { place }) => {
            return Err(refused(2, place + 1, RefusalName::Syntax));
        }
        Err(JahnFault::Rank) => return Err(refused(2, 1, RefusalName::Rank)),
        Err(JahnFault::NoMemory) => return Err(Stop::NoMemory),
    };
    answer_fit(alloc, &tree, &elements, &jahn, later)
}

/// The answer to two words or more.
fn answer_words(alloc: Global, words: &[String]) -> Result<Vec<u8>, Stop>
    requires { 2 ≤ length words.now }
    ensures text { IfOk result (λ text. IsAnswered (map string_bytes words.now) text.items) }
    ensures stop { IfErr result (IsStop (map string_bytes words.now)) }
{
    if let Some(word) = first_long(words) {
        return Err(refused(word, 4001, RefusalName::Long));
    }
    answer_symbols(alloc, words[0].as_bytes(), words[1].as_bytes(), &words[2..])
}

/// How the program is used.
fn usage() -> &'static [u8]
    ensures { result.now ≡ usage_text }
{
    b"usage: tensor_check GROUP JAHN [NAME=NUMBER ...]\n"
}

/// The text for the words, and what it says to them.
fn text_for(alloc: Global, words: &[String]) -> Result<(Kind, Vec<u8>), NoMemory>
    ensures { IfOk result (λ x. IsCheckAnswer (map string_bytes words.now) x.0 x.1.items) }
{
    if words.len() < 2 {
        return Ok((Kind::Usage, Vec::from_slice(alloc, usage())?));
    }
    match answer_words(alloc, words) {
        Ok(text) => Ok((Kind::Answer, text)),
        Err(Stop::Refused(refusal)) => Ok((Kind::Refusal, refusal_line(alloc, refusal)?)),
        Err(Stop::NoMemory) => Err(NoMemory),
    }
}

/// Answers a group, a Jahn symbol and components given by numbers: writes whether the group leaves the tensor unchanged
/// and its stabiliser, or the first refusal that applies, or, where the words are fewer than two, how the program is
/// used. `WriteFault` only where the sink's faults rose; a front of the text is written then. `NoMemory` where memory was
/// refused; nothing is written then.
pub fn run_check<O: Sink>(alloc: Global, words: &[String], sink: &mut O) -> ToolEnd
    ensures leaves { Leaves (IsCheckAnswer (map string_bytes words.now)) result (O.written sink.old) (O.written sink.new) }
    ensures cause { result ≡ ToolEnd.WriteFault → Rose (O.faults sink.old) (O.faults sink.new) }

    // No fault is passed over.
    ensures calm { result ≢ ToolEnd.WriteFault → O.faults sink.new ≡ O.faults sink.old }
{
    match text_for(alloc, words) {
        Ok((kind, text)) => write_text(kind, &text, sink),
        Err(NoMemory) => ToolEnd::NoMemory,
    }
}
