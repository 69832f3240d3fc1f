//! The equation of a component in a state.
ghost use Rattle.std.specs.Prelude.{◌≡◌, ◌++◌, ◌<◌, ◌≤◌, length, OnOk, vec_capacity};
ghost use Rattle.tensor_defs.specs.Lists.{Each};
ghost use Rattle.tensor_defs.specs.Tensor.{index_of};
ghost use Rattle.text_defs.specs.AnswerTexts.{component_name, equation};
ghost use Rattle.text_defs.specs.NumberTexts.{sum_text};
ghost use Rattle.form_lines.specs.Texts.{placed, takes_plus};
ghost use Rattle.answer_writers.specs.Rows.{IsLonger};
ghost use Rattle.differ_answers.specs.Texts.{named_terms};

use crate::faults::NoMemory;
use crate::terms::term_of;
use answer_writers::append_to;
use form_lines::name_bytes;
use reduced_form::Form;
use state_marks::RootTerm;
use std::alloc::Global;
use tensor_rank::{Comp, Rank};

/// Whether + stands before a term at a place of a sum: before a later one, unless it begins with -.
fn takes_plus(text: &[u8], place: usize) -> bool
    ensures { result ≡ takes_plus place text.now }
{
    match text.first() {
        Some(byte) => place > 0 && *byte != b'-',
        None => false,
    }
}

/// Appends a term at a place of a sum: the first one as it is, a later one with + before it unless it begins with -.
fn write_term(text: &[u8], place: usize, out: &mut Vec<u8>) -> Result<(), NoMemory>
    ensures ok { OnOk result (out.new.items ≡ out.old.items ++ placed place text.now) }
    ensures longer { IsLonger out.old.items out.new.items }
    ensures capacity { vec_capacity out.old ≤ vec_capacity out.new }
{
    if takes_plus(text, place) {
        append_to(out, b"+")?;
    }
    append_to(out, text)?;
    Ok(())
}

/// Appends the sum of a row: 0 where it has no term.
fn write_sum<R: Rank>(
    alloc: Global,
    form: &Form<R>,
    row: &[RootTerm],
    out: &mut Vec<u8>,
) -> Result<(), NoMemory>
    requires { Each (λ t. t.free < length form.now.free) row.now }
    ensures ok { OnOk result (out.new.items ≡ out.old.items ++ sum_text (named_terms R.R form.now row.now)) }
    ensures longer { IsLonger out.old.items out.new.items }
    ensures capacity { vec_capacity out.old ≤ vec_capacity out.new }
{
    if row.is_empty() {
        append_to(out, b"0")?;
        return Ok(());
    }
    for place in 0..row.len() {
        let text = term_of(alloc, form, &row[place]);
        write_term(text.as_slice(), place, out)?;
    }
    Ok(())
}

/// Appends the equation of a component.
pub fn write_equation<R: Rank>(
    alloc: Global,
    form: &Form<R>,
    c: Comp<R>,
    row: &[RootTerm],
    out: &mut Vec<u8>,
) -> Result<(), NoMemory>
    requires { Each (λ t. t.free < length form.now.free) row.now }
    ensures ok { OnOk result (out.new.items ≡ out.old.items ++ equation (component_name (index_of R.R c)) (named_terms R.R form.now row.now)) }
    ensures longer { IsLonger out.old.items out.new.items }
    ensures capacity { vec_capacity out.old ≤ vec_capacity out.new }
{
    let name = name_bytes(c);
    append_to(out, &name[..R::R + 1])?;
    append_to(out, b" = ")?;
    write_sum(alloc, form, row, out)?;
    append_to(out, b"\n")?;
    Ok(())
}
