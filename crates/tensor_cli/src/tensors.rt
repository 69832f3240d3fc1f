//! The Jahn words of a request, each answered by itself.
ghost use Rattle.std.specs.Prelude.{◌≡◌, ◌++◌, ◌<◌, ◌≤◌, List, ℕ, IfErr, IfOk, OnErr, OnOk, length, vec_capacity};
ghost use Rattle.tensor_defs.specs.Jahn.{JahnSymbol, rank};
ghost use Rattle.tensor_defs.specs.Lists.{Each};
ghost use Rattle.jahn_grammar.specs.Symbols.{symbol_of};
ghost use Rattle.request_lines.specs.Readings.{IsList, TellsJahn, TellsList};
ghost use Rattle.text_defs.specs.Requests.{JahnAt};
ghost use Rattle.tensor_cli.specs.Kinds.{AddUp, IsFirstStop, IsJoinedOnto, IsShortList, IsTold, IsTooLarge};
ghost use Rattle.line_runs.specs.declared.refusals.Word.TheVariants as Word;

use crate::stops::NoAnswer;
use crate::symbols::{is_in_rank, tensor_in_rank};
use jahn_grammar::Jahn;
use line_runs::{Refusal, Word};
use request_lines::{Span, list_word};
use std::alloc::Global;

/// The most Jahn words of a request.
const MOST: usize = 8;

/// Why there is no answer for a tensor.
#[derive(Clone, Copy, Debug, PartialEq, Eq, Drop)]
pub enum TensorFault {
    TooLarge,
    NoMemory,
}

/// What answers for one tensor.
pub trait AnswersTensor {
    /// What it was made from belongs together.
    ghost ready: { Self → Type 0 };

    /// The bytes answer for a symbol.
    ghost text: { Self → JahnSymbol → List ℕ → Type 0 };

    /// How many free components the answer for a symbol names.
    ghost free: { Self → JahnSymbol → ℕ → Type 0 };

    /// A number that the answer needs is too large.
    ghost grows: { Self → JahnSymbol → Type 0 };

    /// Appends the answer for a tensor, and tells how many free components it names. After an error the list is as before.
    fn answer(&self, alloc: Global, jahn: &Jahn, out: &mut Vec<u8>) -> Result<usize, TensorFault>
        requires ready { ready self.now }
        requires rank { rank (symbol_of jahn.now) ≤ 6 }
        ensures ok { OnOk result ((bytes : List ℕ) × text self.now (symbol_of jahn.now) bytes × (out.new.items ≡ out.old.items ++ bytes)) }
        ensures free { IfOk result (λ n. free self.now (symbol_of jahn.now) n) }
        ensures few { IfOk result (λ n. n ≤ 729) }
        ensures calm { OnOk result (grows self.now (symbol_of jahn.now) → ⊥) }
        ensures large { IfErr result (λ e. e ≡ TensorFault.TooLarge → grows self.now (symbol_of jahn.now)) }
        ensures err { OnErr result (out.new.items ≡ out.old.items) }
        ensures capacity { vec_capacity out.old ≤ vec_capacity out.new };
}

/// Whether each word of a list has a rank up to 6, or else the refusal of the first that has not.
pub fn list_in_rank(line: &[u8], list: Span) -> Result<(), NoAnswer>
    requires short { length line.now ≤ 4000 }
    requires list { IsList line.now list }
    ensures ok { OnOk result (IsTold line.now list (λ js. Each (λ j. rank j.jahn ≤ 6) js)) }
    ensures err { IfErr result (λ e. IsTold line.now list (IsFirstStop Word.Rank (λ j. 6 < rank j.jahn) e)) }
{
    for place in 0..MOST {
        let Some(word) = list_word(line, list, place + 1) else {
            return Ok(());
        };
        if !is_in_rank(line, word) {
            return Err(NoAnswer::Refused(Refusal::at(Word::Rank, word.start)));
        }
    }
    Ok(())
}

/// Appends the answer for a word of a list, and tells how many free components it names. After an error the list is as before.
fn answer_word<T: AnswersTensor>(
    alloc: Global,
    line: &[u8],
    word: Span,
    tensors: &T,
    out: &mut Vec<u8>,
) -> Result<usize, NoAnswer>
    requires ready { T.ready tensors.now }
    requires short { length line.now ≤ 4000 }
    requires told { (b : JahnAt) × TellsJahn line.now word b × (rank b.jahn ≤ 6) }
    ensures ok { OnOk result ((b : JahnAt) → TellsJahn line.now word b →
        (bytes : List ℕ) × T.text tensors.now b.jahn bytes × (out.new.items ≡ out.old.items ++ bytes) × (T.grows tensors.now b.jahn → ⊥)) }
    ensures free { IfOk result (λ n. (b : JahnAt) → TellsJahn line.now word b → T.free tensors.now b.jahn n) }
    ensures few { IfOk result (λ n. n ≤ 729) }
    ensures stop { IfErr result (λ e. (b : JahnAt) → TellsJahn line.now word b → IsTooLarge (T.grows tensors.now b.jahn) b.column e) }
    ensures err { OnErr result (out.new.items ≡ out.old.items) }
    ensures capacity { vec_capacity out.old ≤ vec_capacity out.new }
{
    let jahn = tensor_in_rank(alloc, line, word)?;
    match tensors.answer(alloc, &jahn, out) {
        Ok(free) => Ok(free),
        Err(TensorFault::TooLarge) => Err(NoAnswer::Refused(Refusal::at(
            Word::TooLarge,
            word.start,
        ))),
        Err(TensorFault::NoMemory) => Err(NoAnswer::NoMemory),
    }
}

/// Appends the answers for the words of a list that are within rank, and tells how many free components they name. After an
/// error the list begins as before.
fn answer_words<T: AnswersTensor>(
    alloc: Global,
    line: &[u8],
    list: Span,
    tensors: &T,
    out: &mut Vec<u8>,
) -> Result<usize, NoAnswer>
    requires ready { T.ready tensors.now }
    requires short { length line.now ≤ 4000 }
    requires list { IsShortList line.now list }
    requires in_rank { IsTold line.now list (λ js. Each (λ j. rank j.jahn ≤ 6) js) }
    ensures ok { OnOk result (IsTold line.now list (λ js. IsJoinedOnto (T.text tensors.now) out.old.items out.new.items js
        × Each (λ j. T.grows tensors.now j.jahn → ⊥) js)) }
    ensures free { IfOk result (λ n. IsTold line.now list (λ js. AddUp (T.free tensors.now) js n)) }
    ensures stop { IfErr result (λ e. IsTold line.now list (IsFirstStop Word.TooLarge (λ j. T.grows tensors.now j.jahn) e)) }
    ensures begins { (more : List ℕ) × (out.new.items ≡ out.old.items ++ more) }
    ensures capacity { vec_capacity out.old ≤ vec_capacity out.new }
{
    let mut free = 0;
    for place in 0..MOST {
        let Some(word) = list_word(line, list, place + 1) else {
            return Ok(free);
        };
        free += answer_word(alloc, line, word, tensors, out)?;
    }
    Ok(free)
}

/// Appends the answers for the words of a list that are within rank, joined, and tells how many free components they name.
/// After an error the list is as before.
pub fn answer_list<T: AnswersTensor>(
    alloc: Global,
    line: &[u8],
    list: Span,
    tensors: &T,
    out: &mut Vec<u8>,
) -> Result<usize, NoAnswer>
    requires ready { T.ready tensors.now }
    requires short { length line.now ≤ 4000 }
    requires list { IsShortList line.now list }
    requires in_rank { IsTold line.now list (λ js. Each (λ j. rank j.jahn ≤ 6) js) }
    ensures ok { OnOk result (IsTold line.now list (λ js. IsJoinedOnto (T.text tensors.now) out.old.items out.new.items js
        × Each (λ j. T.grows tensors.now j.jahn → ⊥) js)) }
    ensures free { IfOk result (λ n. IsTold line.now list (λ js. AddUp (T.free tensors.now) js n)) }
    ensures stop { IfErr result (λ e. IsTold line.now list (IsFirstStop Word.TooLarge (λ j. T.grows tensors.now j.jahn) e)) }
    ensures err { OnErr result (out.new.items ≡ out.old.items) }
    ensures capacity { vec_capacity out.old ≤ vec_capacity out.new }
{
    let start = out.len();
    match answer_words(alloc, line, list, tensors, out) {
        Ok(free) => Ok(free),
        Err(stop) => {
            out.truncate(start);
            Err(stop)
        }
    }
}
