//! The text of the component table of a limiting group.
ghost use Rattle.std.specs.Prelude.{◌≡◌, ◌≤◌, ◌++◌, ◌∷◌, [], codes, IfErr, IfOk, OnOk};
ghost use Rattle.std.specs.Fmt.{decimal};
ghost use Rattle.tensor_defs.specs.Jahn.{rank};
ghost use Rattle.tensor_defs.specs.Table.{Table};
ghost use Rattle.text_defs.specs.AnswerTexts.{line_of};
ghost use Rattle.text_defs.specs.JahnTexts.{jahn_text};
ghost use Rattle.jahn_grammar.specs.Symbols.{symbol_of};
ghost use Rattle.tensor_rank.specs.Shapes.{IsShapeOf};
ghost use Rattle.reduced_form.specs.Forms.{form_table};
ghost use Rattle.reduced_form.specs.declared.memory.SolveFault.{SolveFault};
ghost use Rattle.limiting_groups.specs.CurieTables.{CurieGrows, FitsCurie};
ghost use Rattle.curie_runs.specs.CurieTexts.{curie_text, table_answer};

use crate::memory::NoMemory;
use crate::names::curie_text;
use answer_writers::append_to;
use form_lines::write_table;
use jahn_grammar::{Jahn, write_jahn};
use limiting_groups::{Curie, SolveFault, curie_form};
use reduced_form::Form;
use std::alloc::Global;
use table_answers::counts;
use tensor_rank::{Rank, Shape, at_rank, compile};

/// Appends the header of a table.
fn write_header(
    alloc: Global,
    group: Curie,
    jahn: &Jahn,
    free: usize,
    all: usize,
    out: &mut Vec<u8>,
) -> Result<(), NoMemory>
    ensures { OnOk result (out.new.items ≡ out.old.items ++ line_of (codes "curie" ∷ curie_text group ∷ jahn_text (symbol_of jahn.now) ∷ codes "free" ∷ decimal free ∷ codes "of" ∷ decimal all ∷ [])) }
{
    append_to(out, b"curie ")?;
    append_to(out, curie_text(group))?;
    append_to(out, b" ")?;
    write_jahn(jahn, out)?;
    append_to(out, counts(alloc, free, all).as_slice())?;
    Ok(())
}

/// The header and the component lines of a table.
fn text_of_form<R: Rank>(
    alloc: Global,
    group: Curie,
    jahn: &Jahn,
    form: &Form<R>,
) -> Result<Vec<u8>, NoMemory>
    requires { rank (symbol_of jahn.now) ≡ R.R }
    ensures { IfOk result (λ text. text.items ≡ table_answer group (symbol_of jahn.now) (form_table R.R form.now)) }
{
    let mut out = Vec::new(alloc);
    write_header(alloc, group, jahn, form.free_count(), R::LEN, &mut out)?;
    write_table(form, &mut out)?;
    Ok(out)
}

/// The answer for a symbol whose shape is known.
fn answer_at<R: Rank>(
    alloc: Global,
    group: Curie,
    jahn: &Jahn,
    shape: &Shape<R>,
) -> Result<Vec<u8>, SolveFault>
    requires { IsShapeOf (symbol_of jahn.now) R.R shape.now }
    ensures fits { IfOk result (λ text. (a : Table) × FitsCurie (symbol_of jahn.now) group a × (text.items ≡ table_answer group (symbol_of jahn.now) a)) }
    ensures calm { IfOk result (λ _. CurieGrows (symbol_of jahn.now) group → ⊥) }
    ensures grows { IfErr result (λ e. e ≡ SolveFault.TooLarge → CurieGrows (symbol_of jahn.now) group) }
{
    match curie_form(alloc, group, shape) {
        Ok(form) => match text_of_form(alloc, group, jahn, &form) {
            Ok(text) => Ok(text),
            Err(_) => Err(SolveFault::NoMemory),
        },
        Err(fault) => Err(fault),
    }
}

/// The component table of the tensors of a symbol that a limiting group leaves unchanged: a header, and a line for each
/// component in index order. `TooLarge` where a number of the elimination grows past its bound.
pub fn answer_curie(alloc: Global, group: Curie, jahn: &Jahn) -> Result<Vec<u8>, SolveFault>
    requires { rank (symbol_of jahn.now) ≤ 6 }
    ensures fits { IfOk result (λ text. (a : Table) × FitsCurie (symbol_of jahn.now) group a × (text.items ≡ table_answer group (symbol_of jahn.now) a)) }
    ensures calm { IfOk result (λ _. CurieGrows (symbol_of jahn.now) group → ⊥) }
    ensures grows { IfErr result (λ e. e ≡ SolveFault.TooLarge → CurieGrows (symbol_of jahn.now) group) }
{
    match compile(alloc, jahn) {
        Ok(shape) => at_rank!(shape, s => answer_at(alloc, group, jahn, &s)),
        Err(_) => Err(SolveFault::NoMemory),
    }
}
