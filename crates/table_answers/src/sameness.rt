//! The answer to a request whether two groups admit the same tensors.
ghost use Rattle.std.specs.Prelude.{◌≡◌, ◌≤◌, ◌++◌, ◌∷◌, ◌⊎◌, [], true, false, IfErr, OnErr, OnOk, vec_capacity};
ghost use Rattle.tensor_defs.specs.Elimination.{Grows};
ghost use Rattle.tensor_defs.specs.Frames.{IsFramed};
ghost use Rattle.tensor_defs.specs.Group.{InGroup};
ghost use Rattle.tensor_defs.specs.Jahn.{AdmitSame, rank};
ghost use Rattle.tensor_defs.specs.Lists.{IsListing};
ghost use Rattle.tensor_defs.specs.OperationOrder.{comes_before};
ghost use Rattle.tensor_defs.specs.Orders.{index_before};
ghost use Rattle.text_defs.specs.AnswerTexts.{same_text, yes_no};
ghost use Rattle.jahn_grammar.specs.Symbols.{symbol_of};
ghost use Rattle.magnetic_groups.specs.Sets.{In};
ghost use Rattle.answer_writers.specs.Rows.{IsLonger};
ghost use Rattle.table_answers.specs.Tables.{TellsSame};

use crate::memory::NoMemory;
use crate::solving::admit_same;
use answer_writers::append_to;
use group_symbol::{SymbolTree, write_group};
use jahn_grammar::{Jahn, write_jahn};
use magnetic_groups::Group;
use reduced_form::SolveFault;
use std::alloc::Global;
use tensor_rank::{at_rank, compile};

/// Whether two groups admit the same tensors of a symbol.
fn same_of(alloc: Global, one: &Group, other: &Group, jahn: &Jahn) -> Result<bool, SolveFault>
    requires one { IsFramed (In one.now) }
    requires other { IsFramed (In other.now) }
    requires rank { rank (symbol_of jahn.now) ≤ 6 }
    ensures { TellsSame (symbol_of jahn.now) (In one.now) (In other.now) result }
{
    match compile(alloc, jahn) {
        Ok(shape) => at_rank!(shape, s => admit_same(alloc, one, other, &s)),
        Err(_) => Err(SolveFault::NoMemory),
    }
}

/// The end of the line.
fn end_of(same: bool) -> &'static [u8]
    ensures { result.now ≡ 32 ∷ (yes_no same ++ 10 ∷ []) }
{
    if same { b" yes\n" } else { b" no\n" }
}

/// Appends the line.
fn write_line(
    g: &SymbolTree,
    h: &SymbolTree,
    jahn: &Jahn,
    same: bool,
    out: &mut Vec<u8>,
) -> Result<(), NoMemory>
    ensures ok { OnOk result (out.new.items ≡ out.old.items ++ same_text g.now h.now (symbol_of jahn.now) same) }
    ensures longer { IsLonger out.old.items out.new.items }
    ensures capacity { vec_capacity out.old ≤ vec_capacity out.new }
{
    append_to(out, b"same ")?;
    write_group(g, out)?;
    append_to(out, b" ")?;
    write_group(h, out)?;
    append_to(out, b" ")?;
    write_jahn(jahn, out)?;
    append_to(out, end_of(same))?;
    Ok(())
}

/// Appends the line. After `NoMemory` the list is as before.
fn write_same(
    g: &SymbolTree,
    h: &SymbolTree,
    jahn: &Jahn,
    same: bool,
    out: &mut Vec<u8>,
) -> Result<(), SolveFault>
    ensures ok { OnOk result (out.new.items ≡ out.old.items ++ same_text g.now h.now (symbol_of jahn.now) same) }
    ensures memory { IfErr result (λ e. e ≡ SolveFault.NoMemory) }
    ensures err { OnErr result (out.new.items ≡ out.old.items) }
    ensures capacity { vec_capacity out.old ≤ vec_capacity out.new }
{
    let before = out.len();
    match write_line(g, h, jahn, same, out) {
        Ok(()) => Ok(()),
        Err(_) => {
            out.truncate(before);
            Err(SolveFault::NoMemory)
        }
    }
}

/// Appends the answer to a request whether two groups admit the same tensors of a symbol. `TooLarge` where a number of an
/// elimination grows past its bound. After an error the list is as before.
pub fn answer_same(
    alloc: Global,
    g: &SymbolTree,
    h: &SymbolTree,
    one: &Group,
    other: &Group,
    jahn: &Jahn,
    out: &mut Vec<u8>,
) -> Result<(), SolveFault>
    requires one { IsListing comes_before (InGroup g.now) one.now }
    requires other { IsListing comes_before (InGroup h.now) other.now }
    requires framed_one { IsFramed (In one.now) }
    requires framed_other { IsFramed (In other.now) }
    requires rank { rank (symbol_of jahn.now) ≤ 6 }
    ensures ok { OnOk result ((AdmitSame (symbol_of jahn.now) (InGroup g.now) (InGroup h.now)
        × (out.new.items ≡ out.old.items ++ same_text g.now h.now (symbol_of jahn.now) true))
        ⊎ ((AdmitSame (symbol_of jahn.now) (InGroup g.now) (InGroup h.now) → ⊥)
        × (out.new.items ≡ out.old.items ++ same_text g.now h.now (symbol_of jahn.now) false))) }
    ensures calm_one { OnOk result (Grows (symbol_of jahn.now) (InGroup g.now) index_before → ⊥) }
    ensures calm_other { OnOk result (Grows (symbol_of jahn.now) (InGroup h.now) index_before → ⊥) }
    ensures grows { IfErr result (λ e. e ≡ SolveFault.TooLarge →
        Grows (symbol_of jahn.now) (InGroup g.now) index_before
        ⊎ Grows (symbol_of jahn.now) (InGroup h.now) index_before) }
    ensures err { OnErr result (out.new.items ≡ out.old.items) }
    ensures capacity { vec_capacity out.old ≤ vec_capacity out.new }
{
    match same_of(alloc, one, other, jahn) {
        Ok(same) => write_same(g, h, jahn, same, out),
        Err(fault) => Err(fault),
    }
}
