//! Writing a symbol in a dialect.
ghost use Rattle.std.specs.Prelude.{◌≡◌, IfOk, OnErr, OnOk};
ghost use Rattle.tensor_defs.specs.Group.{IsAccepted};
ghost use Rattle.dialects.specs.Answers.{Appends, AppendsLong, TellsForm};

use crate::class_names::class_name;
use crate::forms::form_at;
use crate::long_texts::long_text;
use group_symbol::{NoMemory, SymbolTree, write_group};
use magnetic_groups::GroupFault;
use std::alloc::Global;

/// How a symbol is named: by the short Hermann-Mauguin text, the long one, or the name of its class after
/// Schoenflies.
#[derive(Clone, Copy, Debug, PartialEq, Eq, Drop)]
pub enum Dialect {
    Short,
    Long,
    Schoenflies,
}

/// The place of the long form of a parent, by its number; none where it has none.
fn form_of_parent(number: u8) -> Option<usize>
    ensures { TellsForm number result }
{
    for place in 0..8 {
        if form_at(place).parent == number {
            return Some(place);
        }
    }
    None
}

/// Appends the long text of an accepted symbol.
fn write_long(alloc: Global, tree: &SymbolTree, out: &mut Vec<u8>) -> Result<(), NoMemory>
    requires { IsAccepted tree.now }
    ensures ok { OnOk result (AppendsLong tree.now out.old.items out.new.items) }
    ensures err { OnErr result (out.new.items ≡ out.old.items) }
{
    let _grey = tree.is_grey();
    let Some(place) = form_of_parent(tree.parent().number()) else {
        return write_group(tree, out);
    };
    match long_text(alloc, place, tree) {
        Ok(text) => out.extend_from_slice(text.as_slice()).map_err(|_| NoMemory),
        Err(GroupFault::Primes) => unreachable!(),
        Err(GroupFault::NoMemory) => Err(NoMemory),
    }
}

/// Appends the name of the class of a symbol, where it has no primes and isn't grey.
fn write_name(tree: &SymbolTree, out: &mut Vec<u8>) -> Result<bool, NoMemory>
    ensures ok { IfOk result (Appends Dialect.Schoenflies tree.now out.old.items out.new.items) }
    ensures err { OnErr result (out.new.items ≡ out.old.items) }
{
    if tree.is_grey() || tree.primes() != 0 {
        return Ok(false);
    }
    match out.extend_from_slice(class_name(tree.parent().number())) {
        Ok(()) => Ok(true),
        Err(_) => Err(NoMemory),
    }
}

/// Appends the text of an accepted symbol in a dialect, and answers true. A symbol that has primes or is grey has no
/// name after Schoenflies: then nothing is appended, and the answer is false.
pub fn write_dialect(
    alloc: Global,
    tree: &SymbolTree,
    to: Dialect,
    out: &mut Vec<u8>,
) -> Result<bool, NoMemory>
    requires { IsAccepted tree.now }
    ensures ok { IfOk result (Appends to tree.now out.old.items out.new.items) }
    ensures err { OnErr result (out.new.items ≡ out.old.items) }
{
    match to {
        Dialect::Short => write_group(tree, out).map(|()| true),
        Dialect::Long => write_long(alloc, tree, out).map(|()| true),
        Dialect::Schoenflies => write_name(tree, out),
    }
}
