//! Whether two tables are the same.
ghost use Rattle.std.specs.Prelude.{◌≡◌, ◌<◌, ◌↔◌, IsTrue, length};
ghost use Rattle.reduced_form.specs.Forms.{row_at};

use crate::forms::{Form, Term};
use tensor_rank::{Comp, Rank};

/// Whether two terms are the same.
fn same_term(one: &Term, other: &Term) -> bool
    ensures { IsTrue result ↔ (one.now ≡ other.now) }
{
    one.free == other.free
        && one.factor.num() == other.factor.num()
        && one.factor.den() == other.factor.den()
}

/// Whether two rows are the same.
fn same_row(one: &[Term], other: &[Term]) -> bool
    ensures { IsTrue result ↔ (one.now ≡ other.now) }
{
    if one.len() != other.len() {
        return false;
    }
    for place in 0..one.len() {
        if !same_term(&one[place], &other[place]) {
            return false;
        }
    }
    true
}

/// Whether the rows of two tables are the same.
fn same_rows<R: Rank>(one: &Form<R>, other: &Form<R>) -> bool
    ensures { IsTrue result ↔ (one.now.rows ≡ other.now.rows) }
{
    // fields that are read bring the invariants into the proof
    let _one = &one.rows;
    let _other = &other.rows;
    for number in 0..R::LEN {
        let c = Comp::at(number);
        if !same_row(one.row(c), other.row(c)) {
            return false;
        }
    }
    true
}

impl<R: Rank> Form<R> {
    /// Whether the two tables have the same free components and the same terms at each component.
    pub fn same_form(&self, other: &Form<R>) -> bool
        ensures { IsTrue result ↔ (self.now ≡ other.now) }
    {
        self.free == other.free && same_rows(self, other)
    }
}
