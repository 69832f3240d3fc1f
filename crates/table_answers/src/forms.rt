//! The answer to a request for a component table.
ghost use Rattle.std.specs.Prelude.{◌≡◌, ◌≤◌, ◌++◌, ◌∷◌, [], codes, length, IfErr, IfOk, OnErr, OnOk, vec_capacity};
ghost use Rattle.std.specs.Fmt.{decimal};
ghost use Rattle.tensor_defs.specs.Elimination.{Grows};
ghost use Rattle.tensor_defs.specs.Frames.{IsFramed};
ghost use Rattle.tensor_defs.specs.Group.{InGroup};
ghost use Rattle.tensor_defs.specs.Jahn.{rank};
ghost use Rattle.tensor_defs.specs.Lists.{IsListing};
ghost use Rattle.tensor_defs.specs.OperationOrder.{comes_before};
ghost use Rattle.tensor_defs.specs.Orders.{index_before};
ghost use Rattle.tensor_defs.specs.Table.{Fits, Table};
ghost use Rattle.text_defs.specs.AnswerTexts.{form_text, line_of};
ghost use Rattle.text_defs.specs.GroupTexts.{group_text};
ghost use Rattle.text_defs.specs.JahnTexts.{jahn_text};
ghost use Rattle.jahn_grammar.specs.Symbols.{symbol_of};
ghost use Rattle.magnetic_groups.specs.Sets.{In};
ghost use Rattle.tensor_rank.specs.Shapes.{IsShapeOf};
ghost use Rattle.reduced_form.specs.Forms.{form_table};
ghost use Rattle.answer_writers.specs.Rows.{IsLonger};

use crate::memory::NoMemory;
use crate::solving::index_table;
use answer_writers::append_to;
use exact_frac::append;
use form_lines::write_table;
use group_symbol::{SymbolTree, write_group};
use itoa::Buffer;
use jahn_grammar::{Jahn, write_jahn};
use magnetic_groups::Group;
use reduced_form::{Form, SolveFault};
use smallvec::SmallVec;
use std::alloc::Global;
use tensor_rank::{Rank, Shape, at_rank, compile};

/// The end of a header: how many components there are, and how many of them are free.
pub fn counts(alloc: Global, free: usize, all: usize) -> SmallVec<u8, 96>
    ensures { result.items ≡ 32 ∷ line_of (codes "free" ∷ decimal free ∷ codes "of" ∷ decimal all ∷ []) }
{
    let mut text = SmallVec::new(alloc);
    let mut buffer = Buffer::new();
    append(&mut text, b" free ");
    append(&mut text, buffer.format(free).as_bytes());
    append(&mut text, b" of ");
    append(&mut text, buffer.format(all).as_bytes());
    append(&mut text, b"\n");
    text
}

/// Appends the header of a table.
fn write_header(
    alloc: Global,
    tree: &SymbolTree,
    jahn: &Jahn,
    free: usize,
    all: usize,
    out: &mut Vec<u8>,
) -> Result<(), NoMemory>
    ensures ok { OnOk result (out.new.items ≡ out.old.items ++ line_of (codes "form" ∷ group_text tree.now ∷ jahn_text (symbol_of jahn.now) ∷ codes "free" ∷ decimal free ∷ codes "of" ∷ decimal all ∷ [])) }
    ensures longer { IsLonger out.old.items out.new.items }
    ensures capacity { vec_capacity out.old ≤ vec_capacity out.new }
{
    append_to(out, b"form ")?;
    write_group(tree, out)?;
    append_to(out, b" ")?;
    write_jahn(jahn, out)?;
    append_to(out, counts(alloc, free, all).as_slice())?;
    Ok(())
}

/// Appends the header and the component lines of a table.
fn write_lines<R: Rank>(
    alloc: Global,
    tree: &SymbolTree,
    jahn: &Jahn,
    form: &Form<R>,
    out: &mut Vec<u8>,
) -> Result<(), NoMemory>
    requires { rank (symbol_of jahn.now) ≡ R.R }
    ensures ok { OnOk result (out.new.items ≡ out.old.items ++ form_text tree.now (symbol_of jahn.now) (form_table R.R form.now)) }
    ensures longer { IsLonger out.old.items out.new.items }
    ensures capacity { vec_capacity out.old ≤ vec_capacity out.new }
{
    write_header(alloc, tree, jahn, form.free_count(), R::LEN, out)?;
    write_table(form, out)?;
    Ok(())
}

/// Appends the text of a table, and tells how many of its components are free. After `NoMemory` the list is as before.
fn write_form<R: Rank>(
    alloc: Global,
    tree: &SymbolTree,
    jahn: &Jahn,
    form: &Form<R>,
    out: &mut Vec<u8>,
) -> Result<usize, SolveFault>
    requires { rank (symbol_of jahn.now) ≡ R.R }
    ensures ok { OnOk result (out.new.items ≡ out.old.items ++ form_text tree.now (symbol_of jahn.now) (form_table R.R form.now)) }
    ensures free { IfOk result (λ n. n ≡ length form.now.free) }
    ensures few { IfOk result (λ n. n ≤ R.LEN) }
    ensures memory { IfErr result (λ e. e ≡ SolveFault.NoMemory) }
    ensures err { OnErr result (out.new.items ≡ out.old.items) }
    ensures capacity { vec_capacity out.old ≤ vec_capacity out.new }
{
    let before = out.len();
    match write_lines(alloc, tree, jahn, form, out) {
        Ok(()) => Ok(form.free_count()),
        Err(_) => {
            out.truncate(before);
            Err(SolveFault::NoMemory)
        }
    }
}

/// Appends the answer for a symbol whose shape is known, and tells how many components are free. After an error the list is
/// as before.
fn form_at<R: Rank>(
    alloc: Global,
    g: &SymbolTree,
    group: &Group,
    jahn: &Jahn,
    shape: &Shape<R>,
    out: &mut Vec<u8>,
) -> Result<usize, SolveFault>
    requires group { IsListing comes_before (InGroup g.now) group.now }
    requires framed { IsFramed (In group.now) }
    requires shape { IsShapeOf (symbol_of jahn.now) R.R shape.now }
    ensures ok { OnOk result ((a : Table) × Fits (symbol_of jahn.now) (InGroup g.now) index_before a × (out.new.items ≡ out.old.items ++ form_text g.now (symbol_of jahn.now) a)) }
    ensures free { IfOk result (λ n. (a : Table) × Fits (symbol_of jahn.now) (InGroup g.now) index_before a × (n ≡ length a.free)) }
    ensures few { IfOk result (λ n. n ≤ 729) }
    ensures calm { OnOk result (Grows (symbol_of jahn.now) (InGroup g.now) index_before → ⊥) }
    ensures grows { IfErr result (λ e. e ≡ SolveFault.TooLarge → Grows (symbol_of jahn.now) (InGroup g.now) index_before) }
    ensures err { OnErr result (out.new.items ≡ out.old.items) }
    ensures capacity { vec_capacity out.old ≤ vec_capacity out.new }
{
    match index_table(alloc, group, shape) {
        Ok(form) => write_form(alloc, g, jahn, &form, out),
        Err(fault) => Err(fault),
    }
}

/// Appends the answer to a request for the component table of a symbol's tensors under a group: a header, and a line for
/// each component in index order. Tells how many components are free, as the header does. `TooLarge` where a number of the
/// elimination grows past its bound. After an error the list is as before.
pub fn answer_form(
    alloc: Global,
    g: &SymbolTree,
    group: &Group,
    jahn: &Jahn,
    out: &mut Vec<u8>,
) -> Result<usize, SolveFault>
    requires group { IsListing comes_before (InGroup g.now) group.now }
    requires framed { IsFramed (In group.now) }
    requires rank { rank (symbol_of jahn.now) ≤ 6 }
    ensures ok { OnOk result ((a : Table) × Fits (symbol_of jahn.now) (InGroup g.now) index_before a × (out.new.items ≡ out.old.items ++ form_text g.now (symbol_of jahn.now) a)) }
    ensures free { IfOk result (λ n. (a : Table) × Fits (symbol_of jahn.now) (InGroup g.now) index_before a × (n ≡ length a.free)) }
    ensures few { IfOk result (λ n. n ≤ 729) }
    ensures calm { OnOk result (Grows (symbol_of jahn.now) (InGroup g.now) index_before → ⊥) }
    ensures grows { IfErr result (λ e. e ≡ SolveFault.TooLarge → Grows (symbol_of jahn.now) (InGroup g.now) index_before) }
    ensures err { OnErr result (out.new.items ≡ out.old.items) }
    ensures capacity { vec_capacity out.old ≤ vec_capacity out.new }
{
    match compile(alloc, jahn) {
        Ok(shape) => at_rank!(shape, s => form_at(alloc, g, group, jahn, &s, out)),
        Err(_) => Err(SolveFault::NoMemory),
    }
}
