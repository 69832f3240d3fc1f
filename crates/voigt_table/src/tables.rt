ghost use Rattle.std.specs.Prelude.{◌≡◌, ◌<◌, get_or, length};
ghost use Rattle.reduced_form.specs.Forms.{row_at};
ghost use Rattle.voigt_table.specs.Blocks.{entry_at, entry_count, numbers_of};

use crate::entries::Blocks;
use crate::entry::Entry;
use reduced_form::Term;
use smallvec::SmallVec;
use std::marker::Model;
use tensor_defs::Weights;

/// A Voigt table: the component table in the order of blocks, with the rows of its entries' components weighted.
#[derive(Drop)]
pub struct VoigtTable {
    pub(crate) weights: Weights,
    pub(crate) blocks: Blocks,
    pub(crate) free: Vec<u16>,
    pub(crate) rows: Vec<SmallVec<Term, 2>>,
}

impl Model for VoigtTable {
    ghost use Rattle.std.specs.Prelude.{◌^◌, map};
    ghost use Rattle.tensor_defs.specs.Voigt.{rank_of_blocks};
    ghost use Rattle.reduced_form.specs.Forms.{IsForm};
    ghost use Rattle.voigt_table.specs.Blocks.{sizes_of};
    ghost use Rattle.voigt_table.specs.Tables.{VoigtValue, kept_value};

    ghost Value = { VoigtValue };

    ghost view = { λ t. kept_value t.weights t.blocks t.free.items (map (λ row. row.items) t.rows.items) };

    ghost invariant = { λ t. IsForm (3 ^ rank_of_blocks (sizes_of t.blocks)) (record { free = t.free.items; rows = map (λ row. row.items) t.rows.items }) };
}

impl VoigtTable {
    /// The number of free entries.
    pub fn free_count(&self) -> usize
        ensures { result ≡ length self.now.free }
    {
        self.free.len()
    }

    /// The entry of a number.
    pub(crate) fn entry(&self, number: usize) -> Entry
        requires { number < entry_count self.now.sizes }
        ensures { numbers_of result ≡ entry_at self.now.sizes number }
    {
        self.blocks.entry(number)
    }

    /// The number of the free entry at a place.
    pub(crate) fn free_number(&self, place: usize) -> usize
        requires { place < length self.now.free }
        ensures is { result ≡ get_or self.now.free place 0 }
        ensures below { result < entry_count self.now.sizes }
        ensures small { result < 36 }
    {
        self.blocks.entry_of(self.free[place] as usize)
    }

    /// The free entry at a place.
    pub(crate) fn free_entry(&self, place: usize) -> Entry
        requires { place < length self.now.free }
        ensures { numbers_of result ≡ entry_at self.now.sizes (get_or self.now.free place 0) }
    {
        self.entry(self.free_number(place))
    }

    /// The terms of the entry of a number.
    pub(crate) fn row(&self, number: usize) -> &[Term]
        requires { number < entry_count self.now.sizes }
        ensures { result.now ≡ row_at self.now.rows number }
    {
        self.rows[self.blocks.component(number)].as_slice()
    }
}
