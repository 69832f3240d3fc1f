//! Tables of free components and of the terms of every component.
ghost use Rattle.std.specs.Prelude.{◌≡◌, ◌≤◌, ◌<◌, ℕ, length, map};
ghost use Rattle.tensor_defs.specs.Lists.{Each};
ghost use Rattle.reduced_form.specs.Forms.{IsForm, free_at, row_at};

use exact_frac::Frac;
use smallvec::SmallVec;
use std::alloc::Global;
use std::marker::{Model, PhantomData};
use tensor_rank::{Comp, Rank};

/// A fraction times the free component at a place.
#[derive(Clone, Copy, Debug)]
pub struct Term {
    pub free: u16,
    pub factor: Frac,
}

impl Default for Term {
    fn default() -> Term {
        Term {
            free: 0,
            factor: Frac::zero(),
        }
    }
}

/// A component table of rank R: free components, by their numbers, and the terms of each component.
#[derive(Drop)]
pub struct Form<R: Rank> {
    pub(crate) free: Vec<u16>,
    pub(crate) rows: Vec<SmallVec<Term, 2>>,
    pub(crate) of: PhantomData<R>,
}

impl<R: Rank> Model for Form<R> {
    ghost use Rattle.std.specs.Prelude.{map};
    ghost use Rattle.reduced_form.specs.Forms.{FormValue, IsForm};

    ghost Value = { FormValue };

    ghost view = { λ f. record { free = f.free.items; rows = map (λ row. row.items) f.rows.items } };

    ghost invariant = { λ f. IsForm R.LEN (record { free = f.free.items; rows = map (λ row. row.items) f.rows.items }) };
}

impl<R: Rank> Form<R> {
    /// What the table's memory comes from.
    pub fn alloc(&self) -> Global {
        *self.free.allocator()
    }

    /// The number of free components, each of which is one of rank R.
    pub fn free_count(&self) -> usize
        ensures is { result ≡ length self.now.free }
        ensures few { result ≤ R.LEN }
        ensures below { (k : ℕ) → k < length self.now.free → free_at self.now.free k < R.LEN }
    {
        self.free.len()
    }

    /// The free component at a place, in their order.
    pub fn free_at(&self, place: usize) -> Comp<R>
        requires { place < length self.now.free }
        ensures { result ≡ free_at self.now.free place }
    {
        Comp::at(self.free[place] as usize)
    }

    /// The terms of a component, by rising places, each of which is one of a free component.
    pub fn row(&self, c: Comp<R>) -> &[Term]
        ensures is { result.now ≡ row_at self.now.rows c }
        ensures named { Each (λ t. t.free < length self.now.free) result.now }
    {
        self.rows[c.number() as usize].as_slice()
    }

    /// The free components, by their numbers in their order, and the terms of each component.
    pub fn into_parts(self) -> (Vec<u16>, Vec<SmallVec<Term, 2>>)
        ensures free { result.0.items ≡ self.free }
        ensures rows { map (λ row. row.items) result.1.items ≡ self.rows }
        ensures whole { IsForm R.LEN self }
    {
        (self.free, self.rows)
    }
}
