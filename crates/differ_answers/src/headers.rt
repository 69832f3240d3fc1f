//! The first line of an answer, and that of a state.
ghost use Rattle.std.specs.Prelude.{◌≡◌, ◌++◌, ◌∷◌, ◌≤◌, [], codes, OnOk, vec_capacity};
ghost use Rattle.std.specs.Fmt.{decimal};
ghost use Rattle.text_defs.specs.AnswerTexts.{differ_header, free_names, line_of, or_none};
ghost use Rattle.text_defs.specs.GroupTexts.{group_text};
ghost use Rattle.text_defs.specs.JahnTexts.{jahn_text};
ghost use Rattle.text_defs.specs.NumberTexts.{spaced};
ghost use Rattle.jahn_grammar.specs.Symbols.{symbol_of};
ghost use Rattle.reduced_form.specs.Forms.{form_table};
ghost use Rattle.answer_writers.specs.Rows.{IsLonger};
ghost use Rattle.differ_answers.specs.Texts.{gap};

use crate::faults::NoMemory;
use answer_writers::append_to;
use form_lines::name_bytes;
use group_symbol::{SymbolTree, write_group};
use itoa::Buffer;
use jahn_grammar::{Jahn, write_jahn};
use reduced_form::Form;
use tensor_rank::Rank;

/// Appends a number.
fn write_number(number: usize, out: &mut Vec<u8>) -> Result<(), NoMemory>
    ensures ok { OnOk result (out.new.items ≡ out.old.items ++ decimal number) }
    ensures longer { IsLonger out.old.items out.new.items }
    ensures capacity { vec_capacity out.old ≤ vec_capacity out.new }
{
    let mut buffer = Buffer::new();
    append_to(out, buffer.format(number).as_bytes())?;
    Ok(())
}

/// What stands before the name at a place: a space, but for the first.
fn gap(place: usize) -> &'static [u8]
    ensures { result.now ≡ gap place }
{
    if place == 0 { b"" } else { b" " }
}

/// Appends the names of the free components, or none.
fn write_free<R: Rank>(form: &Form<R>, out: &mut Vec<u8>) -> Result<(), NoMemory>
    ensures ok { OnOk result (out.new.items ≡ out.old.items ++ or_none (free_names (form_table R.R form.now))) }
    ensures longer { IsLonger out.old.items out.new.items }
    ensures capacity { vec_capacity out.old ≤ vec_capacity out.new }
{
    if form.free_count() == 0 {
        append_to(out, b"none")?;
        return Ok(());
    }
    for place in 0..form.free_count() {
        append_to(out, gap(place))?;
        let name = name_bytes(form.free_at(place));
        append_to(out, &name[..R::R + 1])?;
    }
    Ok(())
}

/// Appends the symbols of a request.
fn write_symbols(
    g: &SymbolTree,
    f: &SymbolTree,
    jahn: &Jahn,
    out: &mut Vec<u8>,
) -> Result<(), NoMemory>
    ensures ok { OnOk result (out.new.items ≡ out.old.items ++ spaced (codes "differ" ∷ group_text g.now ∷ group_text f.now ∷ jahn_text (symbol_of jahn.now) ∷ [])) }
    ensures longer { IsLonger out.old.items out.new.items }
    ensures capacity { vec_capacity out.old ≤ vec_capacity out.new }
{
    append_to(out, b"differ ")?;
    write_group(g, out)?;
    append_to(out, b" ")?;
    write_group(f, out)?;
    append_to(out, b" ")?;
    write_jahn(jahn, out)?;
    Ok(())
}

/// Appends the first line of an answer.
pub fn write_header<R: Rank>(
    g: &SymbolTree,
    f: &SymbolTree,
    jahn: &Jahn,
    states: usize,
    form: &Form<R>,
    out: &mut Vec<u8>,
) -> Result<(), NoMemory>
    ensures ok { OnOk result (out.new.items ≡ out.old.items ++ differ_header g.now f.now (symbol_of jahn.now) states (form_table R.R form.now)) }
    ensures longer { IsLonger out.old.items out.new.items }
    ensures capacity { vec_capacity out.old ≤ vec_capacity out.new }
{
    write_symbols(g, f, jahn, out)?;
    append_to(out, b" states ")?;
    write_number(states, out)?;
    append_to(out, b" free ")?;
    write_free(form, out)?;
    append_to(out, b"\n")?;
    Ok(())
}

/// Appends the first line of a state: its number, and how many of all components differ.
pub fn write_front(
    number: usize,
    marked: usize,
    all: usize,
    out: &mut Vec<u8>,
) -> Result<(), NoMemory>
    ensures ok { OnOk result (out.new.items ≡ out.old.items ++ line_of (codes "state" ∷ decimal number ∷ codes "differs" ∷ decimal marked ∷ codes "of" ∷ decimal all ∷ [])) }
    ensures longer { IsLonger out.old.items out.new.items }
    ensures capacity { vec_capacity out.old ≤ vec_capacity out.new }
{
    append_to(out, b"state ")?;
    write_number(number, out)?;
    append_to(out, b" differs ")?;
    write_number(marked, out)?;
    append_to(out, b" of ")?;
    write_number(all, out)?;
    append_to(out, b"\n")?;
    Ok(())
}
