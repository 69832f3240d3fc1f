//! Rows: whole numbers at some of the components.
ghost use Rattle.std.specs.Prelude.{◌≡◌, ◌≢◌, ◌<◌, pos, IfOk, length, slice_get, Some};
ghost use Rattle.constraint_rows.specs.WordRows.{AreParts};

use sign_moves::NoMemory;
use smallvec::SmallVec;
use std::alloc::Global;
use std::marker::{Model, PhantomData};
use tensor_rank::{Comp, Rank};

/// A component, by its number, with a whole number.
#[derive(Clone, Copy, Debug, PartialEq, Eq, Default)]
pub struct Part {
    pub component: u16,
    pub number: i64,
}

/// A row over components of rank R: some components, each with a whole number other than 0.
#[derive(Drop)]
pub struct Row<R: Rank> {
    parts: SmallVec<Part, 4>,
    of: PhantomData<R>,
}

impl<R: Rank> Model for Row<R> {
    ghost use Rattle.std.specs.Prelude.{List};
    ghost use Rattle.constraint_rows.specs.declared.rows.Part.{Part};
    ghost use Rattle.constraint_rows.specs.WordRows.{AreParts};

    ghost Value = { List Part };

    ghost view = { λ row. row.parts.items };

    ghost invariant = { λ row. AreParts R.LEN row.parts.items };
}

impl<R: Rank> Row<R> {
    /// The row of these parts.
    pub fn of_parts(alloc: Global, parts: &[Part]) -> Result<Row<R>, NoMemory>
        requires { AreParts R.LEN parts.now }
        ensures { IfOk result (λ row. row ≡ parts.now) }
    {
        let mut own = SmallVec::new(alloc);
        own.extend_from_slice(parts)?;
        Ok(Row {
            parts: own,
            of: PhantomData,
        })
    }

    /// How many components have a number.
    pub fn len(&self) -> usize
        ensures { result ≡ length self.now }
    {
        self.parts.len()
    }

    /// The component at a place, with its whole number.
    pub fn at(&self, place: usize) -> (Comp<R>, i64)
        requires { place < length self.now }
        ensures part { slice_get self.now place ≡ Some (record { component = result.0; number = result.1 }) }
        ensures number { result.1 ≢ pos 0 }
    {
        let part = self.parts[place];
        (Comp::at(part.component as usize), part.number)
    }

    /// The parts, in their order.
    pub fn parts(&self) -> &[Part]
        ensures parts { result.now ≡ self.now }
        ensures components { AreParts R.LEN result.now }
    {
        &self.parts
    }
}
