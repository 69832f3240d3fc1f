//! The answer to a word, or its refusal.
ghost use Rattle.std.specs.Prelude.{◌≤◌, length, IfOk, MatchResult};
ghost use Rattle.dialect_runs.specs.DialectRuns.{RefusesSymbol, AnswersSymbol, TellsDialect};

use dialects::{Dialect, DialectFault, read_any, write_dialect};
use std::alloc::Global;
use tool_runs::{NoMemory, RefusalName};

/// The dialect of a word; none for another word.
pub(crate) fn dialect_of(word: &[u8]) -> Option<Dialect>
    ensures { TellsDialect word.now result }
{
    match word {
        b"short" => Some(Dialect::Short),
        b"long" => Some(Dialect::Long),
        b"schoenflies" => Some(Dialect::Schoenflies),
        _ => None,
    }
}

/// Why a word is refused: a column of it, counted from 1, and the name of the refusal.
#[derive(Clone, Copy, Drop)]
pub(crate) struct SymbolRefusal {
    pub column: usize,
    pub name: RefusalName,
}

/// The line that answers a word in a dialect, or why it is refused.
pub(crate) fn answer_symbol(
    alloc: Global,
    to: Dialect,
    symbol: &[u8],
) -> Result<Result<Vec<u8>, SymbolRefusal>, NoMemory>
    requires { length symbol.now ≤ 4000 }
    ensures { IfOk result (λ r. MatchResult r (λ text. AnswersSymbol to symbol.now text.items) (λ f. RefusesSymbol to symbol.now f.name f.column)) }
{
    let tree = match read_any(alloc, symbol) {
        Ok(tree) => tree,
        Err(DialectFault::Syntax { place }) => {
            return Ok(Err(SymbolRefusal {
                column: 1 + place,
                name: RefusalName::Syntax,
            }));
        }
        Err(DialectFault::Primes) => {
            return Ok(Err(SymbolRefusal {
                column: 1,
                name: RefusalName::Primes,
            }));
        }
        Err(DialectFault::NoMemory) => return Err(NoMemory),
    };
    let mut text = Vec::new(alloc);
    match write_dialect(alloc, &tree, to, &mut text) {
        Ok(true) => {}
        Ok(false) => {
            return Ok(Err(SymbolRefusal {
                column: 1,
                name: RefusalName::NoName,
            }));
        }
        Err(_) => return Err(NoMemory),
    }
    match text.push(b'\n') {
        Ok(()) => Ok(Ok(text)),
        Err(_) => Err(NoMemory),
    }
}
