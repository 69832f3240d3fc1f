//! The text of the answer.
ghost use Rattle.std.specs.Prelude.{◌≡◌, ◌++◌, length, IfErr, IfOk, OnOk};
ghost use Rattle.std.specs.Fmt.{decimal};
ghost use Rattle.tensor_defs.specs.Tensor.{index_of};
ghost use Rattle.text_defs.specs.AnswerTexts.{component_name, name_text};
ghost use Rattle.text_defs.specs.GroupTexts.{group_text};
ghost use Rattle.text_defs.specs.NumberTexts.{spaced};
ghost use Rattle.jahn_grammar.specs.Symbols.{symbol_of};
ghost use Rattle.tensor_rank.specs.Shapes.{IsShapeOf};
ghost use Rattle.tensor_action.specs.Acting.{tensor_of};
ghost use Rattle.given_tensors.specs.Wholes.{whole_symbol};
ghost use Rattle.check_runs.specs.CheckTexts.{IsCheckText, IsWholeOf, check_line};
ghost use Rattle.check_runs.specs.CheckWords.{Grows};
ghost use Rattle.check_runs.specs.Lines.{IsStabiliserLine, verdict_words};
ghost use Rattle.check_runs.specs.Stops.{IsGrownGiven};

use crate::memory::NoMemory;
use crate::stops::{Stop, grown};
use answer_writers::append_to;
use form_lines::name_bytes;
use given_tensors::{Verdict, Whole, check, stabiliser};
use group_names::name_of;
use group_symbol::{SymbolTree, write_group};
use itoa::Buffer;
use jahn_grammar::{Jahn, write_jahn};
use magnetic_groups::Group;
use root3_num::Root3;
use std::alloc::Global;
use tensor_rank::{Comp, Rank, Shape};

/// Appends a number.
fn write_number(number: usize, out: &mut Vec<u8>) -> Result<(), NoMemory>
    ensures { OnOk result (out.new.items ≡ out.old.items ++ decimal number) }
{
    append_to(out, Buffer::new().format(number).as_bytes())?;
    Ok(())
}

/// Appends the name of a component.
fn write_component<R: Rank>(c: Comp<R>, out: &mut Vec<u8>) -> Result<(), NoMemory>
    ensures { OnOk result (out.new.items ≡ out.old.items ++ component_name (index_of R.R c)) }
{
    let name = name_bytes(c);
    append_to(out, &name[..R::R + 1])?;
    Ok(())
}

/// Appends the words that tell the verdict.
fn write_verdict<R: Rank>(verdict: &Verdict<R>, out: &mut Vec<u8>) -> Result<(), NoMemory>
    ensures { OnOk result (out.new.items ≡ out.old.items ++ spaced (verdict_words R.R verdict.now)) }
{
    match verdict {
        Verdict::Invariant => {
            append_to(out, b"yes")?;
            Ok(())
        }
        Verdict::Symmetry { c } => {
            append_to(out, b"no symmetry ")?;
            write_component(*c, out)
        }
        Verdict::Element { place, c } => {
            append_to(out, b"no element ")?;
            write_number(*place, out)?;
            append_to(out, b" ")?;
            write_component(*c, out)
        }
    }
}

/// Appends the line of the verdict.
fn write_check<R: Rank>(
    tree: &SymbolTree,
    jahn: &Jahn,
    verdict: &Verdict<R>,
    out: &mut Vec<u8>,
) -> Result<(), NoMemory>
    ensures { OnOk result (out.new.items ≡ out.old.items ++ check_line tree.now (symbol_of jahn.now) (verdict_words R.R verdict.now)) }
{
    append_to(out, b"check ")?;
    write_group(tree, out)?;
    append_to(out, b" ")?;
    write_jahn(jahn, out)?;
    append_to(out, b" ")?;
    write_verdict(verdict, out)?;
    append_to(out, b"\n")?;
    Ok(())
}

/// The symbol of a whole group.
fn whole_text(whole: Whole) -> &'static [u8]
    ensures { result.now ≡ group_text (whole_symbol whole) }
{
    match whole {
        Whole::Cubic => b"m-3m1'",
        Whole::Hexagonal => b"6/mmm1'",
    }
}

/// Appends the name of a group, or `none`.
fn write_name(name: &Option<SymbolTree>, out: &mut Vec<u8>) -> Result<(), NoMemory>
    ensures { OnOk result (out.new.items ≡ out.old.items ++ name_text name.now) }
{
    match name {
        Some(tree) => write_group(tree, out)?,
        None => append_to(out, b"none")?,
    }
    Ok(())
}

/// Appends the line of the stabiliser.
fn write_stabiliser(
    alloc: Global,
    whole: Whole,
    group: &Group,
    out: &mut Vec<u8>,
) -> Result<(), NoMemory>
    ensures { OnOk result (IsStabiliserLine whole group.now out.old.items out.new.items) }
{
    let name = match name_of(alloc, group) {
        Ok(name) => name,
        Err(_) => return Err(NoMemory),
    };
    append_to(out, b"stabiliser ")?;
    append_to(out, whole_text(whole))?;
    append_to(out, b" ")?;
    write_name(&name, out)?;
    append_to(out, b" order ")?;
    write_number(group.len(), out)?;
    append_to(out, b"\n")?;
    Ok(())
}

/// The two lines.
fn text_of<R: Rank>(
    alloc: Global,
    tree: &SymbolTree,
    jahn: &Jahn,
    verdict: &Verdict<R>,
    whole: Whole,
    kept: &Group,
) -> Result<Vec<u8>, NoMemory>
    ensures { IfOk result (λ text. IsStabiliserLine whole kept.now (check_line tree.now (symbol_of jahn.now) (verdict_words R.R verdict.now)) text.items) }
{
    let mut out = Vec::new(alloc);
    write_check(tree, jahn, verdict, &mut out)?;
    write_stabiliser(alloc, whole, kept, &mut out)?;
    Ok(out)
}

/// The group of axes in which the stabiliser is looked for.
fn whole_of(group: &Group) -> Whole
    ensures { IsWholeOf group.now result }
{
    if group.is_all_plain() {
        Whole::Cubic
    } else {
        Whole::Hexagonal
    }
}

/// The two lines that answer a group, a symbol and a tensor given by all components.
pub(crate) fn answer_at<R: Rank>(
    alloc: Global,
    tree: &SymbolTree,
    group: &Group,
    jahn: &Jahn,
    shape: &Shape<R>,
    t: &[Root3],
) -> Result<Vec<u8>, Stop>
    requires shape { IsShapeOf (symbol_of jahn.now) R.R shape.now }
    requires size { length t.now ≡ R.LEN }
    ensures text { IfOk result (λ text. IsCheckText tree.now (symbol_of jahn.now) group.now (tensor_of t.now) text.items) }
    ensures calm { IfOk result (λ _. Grows (symbol_of jahn.now) group.now (tensor_of t.now) → ⊥) }
    ensures stop { IfErr result (IsGrownGiven (symbol_of jahn.now) group.now (tensor_of t.now)) }
{
    let verdict = match check(alloc, group, shape, t) {
        Ok(verdict) => verdict,
        Err(fault) => return Err(grown(fault)),
    };
    let whole = whole_of(group);
    let kept = match stabiliser::<R>(alloc, whole, shape.flags(), t) {
        Ok(kept) => kept,
        Err(fault) => return Err(grown(fault)),
    };
    match text_of(alloc, tree, jahn, &verdict, whole, &kept) {
        Ok(text) => Ok(text),
        Err(NoMemory) => Err(Stop::NoMemory),
    }
}
