//! Index order and the orders by blocks.
ghost use Rattle.std.specs.Prelude.{◌≡◌, ℕ, ◌+◌, ◌*◌, ◌<◌, ◌≤◌, ◌↔◌, IsNone, IfSome, [], ◌∷◌, drop};
ghost use Rattle.tensor_defs.specs.Orders.{block_before, block_numbers, index_before};
ghost use Rattle.tensor_defs.specs.Tensor.{index_of};
ghost use Rattle.tensor_rank.specs.Orders.{AreBlocks, ArePlaced, ByBlocks, ByIndex, IsBlock, before_of, front_number, is_by_index, spell};

use crate::components::Comp;
use crate::ranks::Rank;
use sign_moves::Precedence;
use std::marker::{Model, PhantomData};

/// What decides between two components.
#[derive(Clone, Copy)]
enum Kind {
    /// The index digits, the first index first.
    Index,
    /// The numbers of blocks of one or two indices, and where all agree the index digits. Where they are known, the places
    /// of all components in this order.
    Blocks {
        sizes: [u8; 6],
        count: usize,
        places: &'static [u8],
    },
}

/// The place of each component of rank 2 in the order of one pair.
#[rattlefmt::skip]
const PAIR: [u8; 9] = [
    0, 7, 5,
    8, 1, 3,
    6, 4, 2,
];

/// The place of each component of rank 3 in the order of a single index and a pair.
#[rattlefmt::skip]
const VECTOR_PAIR: [u8; 27] = [
    0, 7, 5,  8, 1, 3,  6, 4, 2,
    9, 16, 14,  17, 10, 12,  15, 13, 11,
    18, 25, 23,  26, 19, 21,  24, 22, 20,
];

/// The place of each component of rank 3 in the order of a pair and a single index.
#[rattlefmt::skip]
const PAIR_VECTOR: [u8; 27] = [
    0, 1, 2,  21, 23, 25,  15, 17, 19,
    22, 24, 26,  3, 4, 5,  9, 11, 13,
    16, 18, 20,  10, 12, 14,  6, 7, 8,
];

/// The place of each component of rank 4 in the order of two pairs.
#[rattlefmt::skip]
const TWO_PAIRS: [u8; 81] = [
    0, 7, 5,  8, 1, 3,  6, 4, 2,
    63, 77, 73,  78, 65, 69,  74, 70, 67,
    45, 59, 55,  60, 47, 51,  56, 52, 49,
    64, 79, 75,  80, 66, 71,  76, 72, 68,
    9, 16, 14,  17, 10, 12,  15, 13, 11,
    27, 41, 37,  42, 29, 33,  38, 34, 31,
    46, 61, 57,  62, 48, 53,  58, 54, 50,
    28, 43, 39,  44, 30, 35,  40, 36, 32,
    18, 25, 23,  26, 19, 21,  24, 22, 20,
];

/// An order of the components of rank R.
#[derive(Drop)]
pub struct Order<R: Rank> {
    kind: Kind,
    of: PhantomData<R>,
}

impl<R: Rank> Model for Order<R> {
    ghost use Rattle.tensor_rank.specs.Orders.{Ordering};

    ghost Value = { Ordering };

    ghost use Rattle.tensor_rank.specs.Kinds.{IsKind, ordering_of};

    ghost view = { λ o. ordering_of o.kind };

    ghost invariant = { λ o. IsKind R.R o.kind };
}

/// The number of the block of a size that begins at a place: the index digit, or 1 to 6 for a pair (11, 22, 33, 23,
/// 13, 12).
fn block_number<R: Rank>(size: u8, start: usize, c: Comp<R>) -> u8
    requires size { IsBlock size }
    requires inside { start + size ≤ R.R }
    ensures { result ≡ front_number size (drop start (index_of R.R c)) }
{
    let first = c.digit(start);
    if size == 1 {
        return first;
    }
    let second = c.digit(start + 1);
    if first == second {
        first
    } else {
        9 - (first + second)
    }
}

/// Whether a component comes before another in index order.
fn index_precedes<R: Rank>(a: Comp<R>, b: Comp<R>) -> bool
    ensures { result ≡ index_before (index_of R.R a) (index_of R.R b) }
{
    a.number() < b.number()
}

/// The number that those of the blocks of a component spell in base 7.
fn spelled_by<R: Rank>(sizes: &[u8], c: Comp<R>) -> u32
    requires { AreBlocks R.R sizes.now }
    ensures { result ≡ spell 0 (block_numbers sizes.now (index_of R.R c)) }
{
    let mut spelled = 0;
    let mut start = 0;
    for size in sizes {
        spelled = 7 * spelled + u32::from(block_number(*size, start, c));
        start += *size as usize;
    }
    spelled
}

/// The places of all components in the order of two blocks, if they are known.
fn places_of_two(first: u8, last: u8) -> &'static [u8]
    ensures { (r : ℕ) → AreBlocks r (first ∷ last ∷ []) → ArePlaced r (first ∷ last ∷ []) result.now }
{
    if first == 1 && last == 2 {
        return &VECTOR_PAIR;
    }
    if first == 2 && last == 1 {
        return &PAIR_VECTOR;
    }
    if first == 2 && last == 2 {
        return &TWO_PAIRS;
    }
    &[]
}

/// The places of all components in the order of blocks, if they are known, as for the blocks of a Voigt table.
fn places_of(sizes: &[u8]) -> &'static [u8]
    ensures { (r : ℕ) → AreBlocks r sizes.now → ArePlaced r sizes.now result.now }
{
    if sizes.len() == 1 && sizes[0] == 2 {
        return &PAIR;
    }
    if sizes.len() == 2 {
        return places_of_two(sizes[0], sizes[1]);
    }
    &[]
}

/// Whether a component comes before another in the order of blocks: by what the numbers of their blocks spell, and where
/// it agrees by the index digits.
#[inline(never)]
fn spelled_precede<R: Rank>(sizes: &[u8], a: Comp<R>, b: Comp<R>) -> bool
    requires { AreBlocks R.R sizes.now }
    ensures { result ≡ block_before sizes.now (index_of R.R a) (index_of R.R b) }
{
    let one = spelled_by(sizes, a);
    let other = spelled_by(sizes, b);
    if one == other {
        return index_precedes(a, b);
    }
    one < other
}

/// Whether a component comes before another in the order of blocks: by their places where these are known.
fn blocks_precede<R: Rank>(sizes: &[u8], places: &[u8], a: Comp<R>, b: Comp<R>) -> bool
    requires blocks { AreBlocks R.R sizes.now }
    requires places { ArePlaced R.R sizes.now places.now }
    ensures { result ≡ block_before sizes.now (index_of R.R a) (index_of R.R b) }
{
    let one = a.number() as usize;
    let other = b.number() as usize;
    if one < places.len() && other < places.len() {
        return places[one] < places[other];
    }
    spelled_precede(sizes, a, b)
}

impl<R: Rank> Order<R> {
    /// The order by the index digits, the first index first.
    pub fn index() -> Order<R>
        ensures { result ≡ ByIndex }
    {
        Order {
            kind: Kind::Index,
            of: PhantomData,
        }
    }

    /// The order by the numbers of blocks of one or two indices. None where the blocks aren't of one or two, or
    /// together not R indices.
    pub fn of_blocks(blocks: &[u8]) -> Option<Order<R>>
        ensures none { IsNone result ↔ (¬ AreBlocks R.R blocks.now) }
        ensures value { IfSome result (λ o. o ≡ ByBlocks blocks.now) }
    {
        let mut left = R::R;
        for size in blocks {
            let size = *size as usize;
            if size != 1 && size != 2 {
                return None;
            }
            left = left.checked_sub(size)?;
        }
        if left != 0 {
            return None;
        }
        let mut sizes = [0; 6];
        let count = blocks.len();
        sizes[..count].copy_from_slice(blocks);
        Some(Order {
            kind: Kind::Blocks {
                sizes,
                count,
                places: places_of(blocks),
            },
            of: PhantomData,
        })
    }

    /// Whether this is the order by the index digits.
    pub(crate) fn is_index(&self) -> bool
        ensures { result ≡ is_by_index self.now }
    {
        matches!(&self.kind, Kind::Index)
    }

    /// Whether a component comes before another.
    #[inline(always)]
    pub fn before(&self, a: Comp<R>, b: Comp<R>) -> bool
        ensures { result ≡ before_of self.now (index_of R.R a) (index_of R.R b) }
    {
        match &self.kind {
            Kind::Index => index_precedes(a, b),
            Kind::Blocks {
                sizes,
                count,
                places,
            } => blocks_precede(&sizes[..*count], places, a, b),
        }
    }
}

impl<R: Rank> Precedence for Order<R> {
    ghost use Rattle.tensor_rank.specs.Orders.{before_at};
    ghost use Rattle.tensor_rank.specs.StrictOrders.{orders_strict};

    ghost size = { λ o. R.LEN };

    ghost order = { λ o. before_at R.R o };

    #[inline(always)]
    fn precedes(&self, one: usize, other: usize) -> bool {
        self.before(Comp::at(one), Comp::at(other))
    }

    ghost strict = { λ o. orders_strict R.R o };
}
