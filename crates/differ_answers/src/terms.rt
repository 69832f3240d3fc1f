//! The terms of a sum: exact factors with the names of free components.
ghost use Rattle.std.specs.Prelude.{◌≡◌, ◌+◌, ◌++◌, ◌≤◌, ◌<◌, length};
ghost use Rattle.tensor_defs.specs.Tensor.{index_of};
ghost use Rattle.text_defs.specs.AnswerTexts.{component_name};
ghost use Rattle.text_defs.specs.NumberTexts.{factor_text, term_text};
ghost use Rattle.smallvec.specs.SmallVec.{HasRoomFor, small_vec_len};
ghost use Rattle.reduced_form.specs.Forms.{free_at};

use exact_frac::append;
use form_lines::name_bytes;
use reduced_form::Form;
use root3_num::{Root3, is_negative_part, is_one_part, is_zero_part, size_of_part};
use smallvec::SmallVec;
use state_marks::RootTerm;
use std::alloc::Global;
use tensor_rank::Rank;

/// Appends the factor of a name: nothing at 1, - at -1, else its text and *, in brackets where neither part is 0.
fn push_factor(text: &mut SmallVec<u8, 128>, alloc: Global, factor: &Root3)
    requires { HasRoomFor text.old 100 }
    ensures items { text.new.items ≡ text.old.items ++ factor_text factor.now }
    ensures len { small_vec_len text.new ≤ small_vec_len text.old + 100 }
    ensures capacity { text.new.capacity ≡ text.old.capacity }
{
    if is_zero_part(&factor.b) {
        if !is_one_part(&size_of_part(&factor.a)) {
            append(text, factor.a.text(alloc).as_slice());
            append(text, b"*");
        } else if is_negative_part(&factor.a) {
            append(text, b"-");
        }
    } else if is_zero_part(&factor.a) {
        append(text, factor.text(alloc).as_slice());
        append(text, b"*");
    } else {
        append(text, b"(");
        append(text, factor.text(alloc).as_slice());
        append(text, b")*");
    }
}

/// The text of a term: its factor and the name of its free component.
pub fn term_of<R: Rank>(alloc: Global, form: &Form<R>, term: &RootTerm) -> SmallVec<u8, 128>
    requires { term.now.free < length form.now.free }
    ensures { result.items ≡ term_text term.now.factor (component_name (index_of R.R (free_at form.now.free term.now.free))) }
{
    let mut text = SmallVec::new(alloc);
    push_factor(&mut text, alloc, &term.factor);
    let name = name_bytes(form.free_at(term.free as usize));
    append(&mut text, &name[..R::R + 1]);
    text
}
