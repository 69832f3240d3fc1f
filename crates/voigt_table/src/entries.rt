//! The entries of a Voigt table by their numbers, and their components.
ghost use Rattle.std.specs.Prelude.{◌≡◌, ◌^◌, ◌<◌, ◌≤◌, map};
ghost use Rattle.std.specs.List.{range_with_len};
ghost use Rattle.tensor_defs.specs.Orders.{block_numbers};
ghost use Rattle.tensor_defs.specs.Tensor.{component_number, index_of};
ghost use Rattle.tensor_defs.specs.Voigt.{component_of, rank_of_blocks, shift};
ghost use Rattle.tensor_rank.specs.Orders.{AreBlocks, ByBlocks};
ghost use Rattle.voigt_table.specs.Blocks.{component_at, entry_at, entry_count, entry_of, numbers_of, pair_number, shear, shears_at, sizes_of};

use crate::entry::Entry;
use tensor_defs::Weights;
use tensor_rank::{Order, Rank};

/// The blocks of indices of a symbol that has a Voigt table, from left to right: single indices, and pairs.
#[derive(Clone, Copy, Debug, PartialEq, Eq, Drop)]
pub enum Blocks {
    Pair,
    VectorPair,
    PairVector,
    TwoPairs,
}

/// The first two indices, as a number from 0, that make each of the pairs 11, 22, 33, 23, 13, 12.
const PAIR_COMPONENTS: [u8; 6] = [0, 4, 8, 5, 2, 1];

/// Which of these pairs each two indices are, from 0.
const PAIR_NUMBERS: [u8; 9] = [0, 5, 4, 5, 1, 3, 4, 3, 2];

/// The components of the entries of a single index and a pair.
const VECTOR_PAIR_COMPONENTS: [u8; 18] = [
    0, 4, 8, 5, 2, 1, 9, 13, 17, 14, 11, 10, 18, 22, 26, 23, 20, 19,
];

/// The components of the entries of a pair and a single index.
const PAIR_VECTOR_COMPONENTS: [u8; 18] = [
    0, 1, 2, 12, 13, 14, 24, 25, 26, 15, 16, 17, 6, 7, 8, 3, 4, 5,
];

/// The components of the entries of two pairs.
#[rattlefmt::skip]
const TWO_PAIRS_COMPONENTS: [u8; 36] = [
    0, 4, 8, 5, 2, 1,
    36, 40, 44, 41, 38, 37,
    72, 76, 80, 77, 74, 73,
    45, 49, 53, 50, 47, 46,
    18, 22, 26, 23, 20, 19,
    9, 13, 17, 14, 11, 10,
];

/// 1 for each two indices that differ, which make a shear pair.
const SHEARS: [u8; 9] = [0, 1, 1, 1, 0, 1, 1, 1, 0];

/// 1 for a shear pair, by its two indices.
fn shear(component: usize) -> u8
    requires { component < 9 }
    ensures { result ≡ shear component }
{
    SHEARS[component]
}

/// The pair of two indices.
fn pair_number(component: usize) -> usize
    requires { component < 9 }
    ensures { result ≡ pair_number component }
{
    PAIR_NUMBERS[component] as usize
}

impl Blocks {
    /// How many entries there are.
    pub fn entry_count(self) -> usize
        ensures { result ≡ entry_count (sizes_of self) }
    {
        match self {
            Blocks::Pair => 6,
            Blocks::VectorPair | Blocks::PairVector => 18,
            Blocks::TwoPairs => 36,
        }
    }

    /// The entry of a number.
    pub fn entry(self, number: usize) -> Entry
        requires { number < entry_count (sizes_of self) }
        ensures { numbers_of result ≡ entry_at (sizes_of self) number }
    {
        match self {
            Blocks::Pair => Entry {
                first: None,
                last: number as u8 + 1,
            },
            Blocks::PairVector => Entry {
                first: Some((number / 3) as u8 + 1),
                last: (number % 3) as u8 + 1,
            },
            Blocks::VectorPair | Blocks::TwoPairs => Entry {
                first: Some((number / 6) as u8 + 1),
                last: (number % 6) as u8 + 1,
            },
        }
    }

    /// The components of the entries, in their order.
    fn components(self) -> &'static [u8]
        ensures { result.now ≡ map (component_at self) (range_with_len 0 (entry_count (sizes_of self))) }
    {
        match self {
            Blocks::Pair => &PAIR_COMPONENTS,
            Blocks::VectorPair => &VECTOR_PAIR_COMPONENTS,
            Blocks::PairVector => &PAIR_VECTOR_COMPONENTS,
            Blocks::TwoPairs => &TWO_PAIRS_COMPONENTS,
        }
    }

    /// The number of the component of an entry: the first one that has its block numbers.
    pub fn component(self, number: usize) -> usize
        requires { number < entry_count (sizes_of self) }
        ensures at { result ≡ component_at self number }
        ensures value { result ≡ component_number (component_of (sizes_of self) (entry_at (sizes_of self) number)) }
        ensures below { result < 3 ^ rank_of_blocks (sizes_of self) }
    {
        self.components()[number] as usize
    }

    /// The same as `entry_of`, by arithmetic.
    fn entry_at(self, component: usize) -> usize
        requires { component < 3 ^ rank_of_blocks (sizes_of self) }
        ensures value { result ≡ entry_of self component }
        ensures below { result < entry_count (sizes_of self) }
        ensures small { result < 36 }
    {
        match self {
            Blocks::Pair => pair_number(component),
            Blocks::VectorPair => component / 9 * 6 + pair_number(component % 9),
            Blocks::PairVector => pair_number(component / 3) * 3 + component % 3,
            Blocks::TwoPairs => pair_number(component / 9) * 6 + pair_number(component % 9),
        }
    }

    /// The number of the entry to which a component belongs: it has the component's block numbers.
    pub fn entry_of(self, component: usize) -> usize
        requires { component < 3 ^ rank_of_blocks (sizes_of self) }
        ensures value { result ≡ entry_of self component }
        ensures below { result < entry_count (sizes_of self) }
        ensures small { result < 36 }
        ensures numbers { entry_at (sizes_of self) result ≡ block_numbers (sizes_of self) (index_of (rank_of_blocks (sizes_of self)) component) }
    {
        self.entry_at(component)
    }

    /// How many blocks of a component are shear pairs.
    fn shears_at(self, component: usize) -> u8
        requires { component < 3 ^ rank_of_blocks (sizes_of self) }
        ensures value { result ≡ shears_at self component }
    {
        match self {
            Blocks::Pair => shear(component),
            Blocks::VectorPair => shear(component % 9),
            Blocks::PairVector => shear(component / 3),
            Blocks::TwoPairs => shear(component / 9) + shear(component % 9),
        }
    }

    /// The power of 2 that is the weight of the entry to which a component belongs.
    pub fn shift_of(self, component: usize, weights: Weights) -> u8
        requires { component < 3 ^ rank_of_blocks (sizes_of self) }
        ensures value { result ≡ shift weights (entry_at (sizes_of self) (entry_of self component)) }
        ensures small { result ≤ 2 }
    {
        match weights {
            Weights::Plain => 0,
            Weights::Shear => self.shears_at(component),
        }
    }

    /// The power of 2 that is the weight of the entry of a number.
    pub fn shift(self, number: usize, weights: Weights) -> u8
        requires { number < entry_count (sizes_of self) }
        ensures value { result ≡ shift weights (entry_at (sizes_of self) number) }
        ensures small { result ≤ 2 }
    {
        self.shift_of(self.component(number), weights)
    }

    /// The order of components by the block numbers.
    pub fn order<R: Rank>(self) -> Order<R>
        requires { AreBlocks R.R (sizes_of self) }
        ensures { result ≡ ByBlocks (sizes_of self) }
    {
        let order = match self {
            Blocks::Pair => Order::of_blocks(&[2]),
            Blocks::VectorPair => Order::of_blocks(&[1, 2]),
            Blocks::PairVector => Order::of_blocks(&[2, 1]),
            Blocks::TwoPairs => Order::of_blocks(&[2, 2]),
        };
        order.unwrap()
    }
}
