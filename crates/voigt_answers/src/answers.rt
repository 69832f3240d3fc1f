//! The answer to a request for a Voigt table.
ghost use Rattle.std.specs.Prelude.{◌≡◌, ◌≤◌, ◌↔◌, ◌++◌, ◌∷◌, [], List, ℕ, codes, length, IfErr, IfOk, OnErr, OnOk, vec_capacity};
ghost use Rattle.std.specs.Fmt.{decimal};
ghost use Rattle.tensor_defs.specs.Frames.{AllOf, IsFramed, IsPlain};
ghost use Rattle.tensor_defs.specs.Group.{InGroup};
ghost use Rattle.tensor_defs.specs.Jahn.{rank};
ghost use Rattle.tensor_defs.specs.Lists.{IsListing};
ghost use Rattle.tensor_defs.specs.OperationOrder.{comes_before};
ghost use Rattle.tensor_defs.specs.Voigt as defs;
ghost use Rattle.tensor_defs.specs.Voigt.{HasBlocks, HasVoigtShape, IsVoigtTable, VoigtGrows};
ghost use Rattle.text_defs.specs.AnswerTexts.{line_of, voigt_text, weights_word};
ghost use Rattle.text_defs.specs.GroupTexts.{group_text};
ghost use Rattle.text_defs.specs.JahnTexts.{jahn_text};
ghost use Rattle.jahn_grammar.specs.Symbols.{symbol_of};
ghost use Rattle.magnetic_groups.specs.Sets.{In};
ghost use Rattle.answer_writers.specs.Rows.{IsLonger};
ghost use Rattle.voigt_table.specs.Tables.{voigt_of};
ghost use Rattle.voigt_table.specs.declared.memory.VoigtFault.{VoigtFault};

use crate::memory::NoMemory;
use answer_writers::append_to;
use exact_frac::append;
use group_symbol::{SymbolTree, write_group};
use itoa::Buffer;
use jahn_grammar::{Jahn, write_jahn};
use magnetic_groups::Group;
use smallvec::SmallVec;
use std::alloc::Global;
use voigt_table::{VoigtFault, VoigtTable, Weights, voigt};

/// What stands between the symbol and the number of free entries.
fn before_count(weights: Weights) -> &'static [u8]
    ensures { result.now ≡ 32 ∷ (weights_word weights ++ 32 ∷ (codes "free" ++ 32 ∷ [])) }
{
    match weights {
        Weights::Plain => b" c free ",
        Weights::Shear => b" s free ",
    }
}

/// The end of a header: the letter of the weights, and how many entries are free.
fn counts(alloc: Global, weights: Weights, free: usize) -> SmallVec<u8, 96>
    ensures { result.items ≡ 32 ∷ line_of (weights_word weights ∷ codes "free" ∷ decimal free ∷ []) }
{
    let mut text = SmallVec::new(alloc);
    let mut buffer = Buffer::new();
    append(&mut text, before_count(weights));
    append(&mut text, buffer.format(free).as_bytes());
    append(&mut text, b"\n");
    text
}

/// Appends the header of a table.
fn write_header(
    alloc: Global,
    tree: &SymbolTree,
    jahn: &Jahn,
    weights: Weights,
    free: usize,
    out: &mut Vec<u8>,
) -> Result<(), NoMemory>
    ensures ok { OnOk result (out.new.items ≡ out.old.items ++ line_of (codes "voigt" ∷ group_text tree.now ∷ jahn_text (symbol_of jahn.now) ∷ weights_word weights ∷ codes "free" ∷ decimal free ∷ [])) }
    ensures longer { IsLonger out.old.items out.new.items }
    ensures capacity { vec_capacity out.old ≤ vec_capacity out.new }
{
    append_to(out, b"voigt ")?;
    write_group(tree, out)?;
    append_to(out, b" ")?;
    write_jahn(jahn, out)?;
    append_to(out, counts(alloc, weights, free).as_slice())?;
    Ok(())
}

/// Appends the header and the entry lines of a table.
fn write_lines(
    alloc: Global,
    tree: &SymbolTree,
    jahn: &Jahn,
    weights: Weights,
    table: &VoigtTable,
    out: &mut Vec<u8>,
) -> Result<(), NoMemory>
    requires { table.now.weights ≡ weights }
    ensures ok { OnOk result (out.new.items ≡ out.old.items ++ voigt_text tree.now (symbol_of jahn.now) weights table.now.sizes (voigt_of table.now)) }
    ensures longer { IsLonger out.old.items out.new.items }
    ensures capacity { vec_capacity out.old ≤ vec_capacity out.new }
{
    write_header(alloc, tree, jahn, weights, table.free_count(), out)?;
    table.write_table(out)?;
    Ok(())
}

/// Appends the text of a table, and tells how many of its entries are free. After `NoMemory` the list is as before.
fn write_voigt(
    alloc: Global,
    tree: &SymbolTree,
    jahn: &Jahn,
    weights: Weights,
    table: &VoigtTable,
    out: &mut Vec<u8>,
) -> Result<usize, VoigtFault>
    requires { table.now.weights ≡ weights }
    ensures ok { OnOk result (out.new.items ≡ out.old.items ++ voigt_text tree.now (symbol_of jahn.now) weights table.now.sizes (voigt_of table.now)) }
    ensures free { IfOk result (λ n. n ≡ length table.now.free) }
    ensures memory { IfErr result (λ e. e ≡ VoigtFault.NoMemory) }
    ensures err { OnErr result (out.new.items ≡ out.old.items) }
    ensures capacity { vec_capacity out.old ≤ vec_capacity out.new }
{
    let before = out.len();
    match write_lines(alloc, tree, jahn, weights, table, out) {
        Ok(()) => Ok(table.free_count()),
        Err(_) => {
            out.truncate(before);
            Err(VoigtFault::NoMemory)
        }
    }
}

/// Appends the answer to a request for the Voigt table of a symbol's tensors under a group: a header, and a line for each
/// entry in order. Tells how many entries are free, as the header does. `Shape` exactly where the symbol without marks has no
/// Voigt table; `TooLarge` where a number of the elimination or a weighted factor grows past its bound, and never for a group
/// that is all plain. After an error the list is as before.
pub fn answer_voigt(
    alloc: Global,
    g: &SymbolTree,
    group: &Group,
    jahn: &Jahn,
    weights: Weights,
    out: &mut Vec<u8>,
) -> Result<usize, VoigtFault>
    requires group { IsListing comes_before (InGroup g.now) group.now }
    requires framed { IsFramed (In group.now) }
    requires rank { rank (symbol_of jahn.now) ≤ 6 }
    ensures ok { OnOk result ((bs : List ℕ) × HasBlocks (symbol_of jahn.now).factors bs
        × (v : defs.VoigtTable) × IsVoigtTable (symbol_of jahn.now) (InGroup g.now) bs weights v
        × (out.new.items ≡ out.old.items ++ voigt_text g.now (symbol_of jahn.now) weights bs v)) }
    ensures free { IfOk result (λ n. (bs : List ℕ) × HasBlocks (symbol_of jahn.now).factors bs
        × (v : defs.VoigtTable) × IsVoigtTable (symbol_of jahn.now) (InGroup g.now) bs weights v × (n ≡ length v.free)) }
    ensures calm { OnOk result ((bs : List ℕ) → HasBlocks (symbol_of jahn.now).factors bs → VoigtGrows (symbol_of jahn.now) (InGroup g.now) bs weights → ⊥) }
    ensures grows { IfErr result (λ e. e ≡ VoigtFault.TooLarge → (bs : List ℕ) × HasBlocks (symbol_of jahn.now).factors bs × VoigtGrows (symbol_of jahn.now) (InGroup g.now) bs weights) }
    ensures plain { IfErr result (λ e. e ≡ VoigtFault.TooLarge → ¬ AllOf (In group.now) IsPlain) }
    ensures shape { (result ≡ Err VoigtFault.Shape) ↔ (HasVoigtShape (symbol_of jahn.now).factors → ⊥) }
    ensures err { OnErr result (out.new.items ≡ out.old.items) }
    ensures capacity { vec_capacity out.old ≤ vec_capacity out.new }
{
    match voigt(alloc, group, jahn, weights) {
        Ok(table) => write_voigt(alloc, g, jahn, weights, &table, out),
        Err(fault) => Err(fault),
    }
}
