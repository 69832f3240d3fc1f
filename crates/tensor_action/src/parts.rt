//! The components from which a component of the carried tensor takes, with the products of the entries between.
ghost use Rattle.std.specs.Prelude.{◌≡◌, ◌+◌, ◌-◌, ◌*◌, ◌≤◌, ◌<◌, ◌++◌, ◌∷◌, [], IfOk, IsTrue, Some, false, length, take, vec_capacity, vec_len};
ghost use Rattle.tensor_defs.specs.Lists.{Each};
ghost use Rattle.tensor_defs.specs.Operation.{Axis, Operation, value};
ghost use Rattle.tensor_defs.specs.Tensor.{Index, index_of};
ghost use Rattle.op_matrix.specs.View.{axis};
ghost use Rattle.root3_num.specs.Roots.{value_of_root};
ghost use Rattle.sign_moves.specs.Signs.{signed};
ghost use Rattle.tensor_action.specs.Factors.{IsWithin, entry_number, product_number};
ghost use Rattle.tensor_action.specs.Reaching.{AreParts, Extends, IsFront};

use crate::products::{Product, number_of, one, with_entry};
use op_matrix::{Entry, Op};
use root3_num::Root3;
use std::alloc::{AllocError, Global};
use std::marker::{Model, PhantomData};
use std::mem::swap;
use tensor_rank::{Comp, Rank, Sign};

/// A component, by its number, from which another takes, and the product of the entries at their indices.
#[derive(Clone, Copy)]
pub struct Part {
    pub number: u16,
    pub product: Product,
}

impl Part {
    /// The number of the product, with one more sign.
    pub fn factor(&self, sign: Sign) -> Root3
        requires { 0 < self.now.product.below }
        ensures { value_of_root result ≡ signed sign (product_number self.now.product) }
    {
        number_of(self.product, sign)
    }
}

/// Whether an entry isn't 0.
fn is_taken(entry: Entry) -> bool
    ensures { result ≡ false → entry ≡ Entry.Zero }
{
    match entry {
        Entry::Zero => false,
        _ => true,
    }
}

/// Appends a part with an index more, behind: that of a column, if it is taken at all.
fn append_taken(part: &Part, entry: Entry, col: u16, out: &mut Vec<Part>)
    requires col { col < 3 }
    requires small { part.now.number < 243 }
    requires within { IsWithin 243 part.now.product }
    requires room { vec_len out.old < vec_capacity out.old }
    ensures extends { (g : Operation) (i : Axis) → entry_number entry ≡ value g i (axis col) → Extends g i col part.now out.old.items out.new.items }
    ensures len { vec_len out.new ≤ vec_len out.old + 1 }
    ensures capacity { vec_capacity out.new ≡ vec_capacity out.old }
{
    if is_taken(entry) {
        out.push_reserved(Part {
            number: 3 * part.number + col,
            product: with_entry(part.product, entry),
        });
    }
}

/// The parts with an index more, behind, in place of those that a list held.
fn with_index(op: &Op, row: usize, parts: &[Part], longer: &mut Vec<Part>)
    requires row { row < 3 }
    requires small { Each (λ p. p.number < 243) parts.now }
    requires within { Each (λ p. IsWithin 243 p.product) parts.now }
    requires room { 3 * length parts.now ≤ vec_capacity longer.old }
    ensures parts { (is : Index) → AreParts op.now is parts.now → AreParts op.now (is ++ axis row ∷ []) longer.new.items }
    ensures capacity { vec_capacity longer.new ≡ vec_capacity longer.old }
{
    let first = op.entry(row, 0);
    let second = op.entry(row, 1);
    let third = op.entry(row, 2);
    longer.clear();
    for place in 0..parts.len() {
        let part = parts[place];
        append_taken(&part, first, 0, longer);
        append_taken(&part, second, 1, longer);
        append_taken(&part, third, 2, longer);
    }
}

/// The parts of the first indices of a component, in place of those that a list held, with a second list for the steps
/// between.
fn fill<R: Rank>(op: &Op, to: Comp<R>, count: usize, parts: &mut Vec<Part>, longer: &mut Vec<Part>)
    requires count { count ≤ R.R }
    requires room { R.LEN ≤ vec_capacity parts.old }
    requires room_longer { R.LEN ≤ vec_capacity longer.old }
    ensures parts { AreParts op.now (take count (index_of R.R to)) parts.new.items }
    ensures room { R.LEN ≤ vec_capacity parts.new }
    ensures room_longer { R.LEN ≤ vec_capacity longer.new }
{
    parts.clear();
    parts.push_reserved(Part {
        number: 0,
        product: one(),
    });
    for place in 0..count {
        let row = to.digit(place) as usize - 1;
        with_index(op, row, parts, longer);
        swap(parts, longer);
    }
}

/// All indices of a component but the last, by the number of a component of as many indices, and an operation.
#[derive(Clone, Copy)]
struct Front {
    op: Op,
    number: u16,
}

/// Whether the parts that are held are those of a front.
fn is_held(held: &Option<Front>, op: &Op, number: u16) -> bool
    ensures { IsTrue result → held.now ≡ Some (record { op = op.now; number = number }) }
{
    match held {
        Some(front) => front.number == number && front.op.place() == op.place(),
        None => false,
    }
}

/// The parts of the front of a component, unless they are held already, with a second list for the steps between.
fn fill_front<R: Rank>(
    op: &Op,
    to: Comp<R>,
    held: &mut Option<Front>,
    parts: &mut Vec<Part>,
    longer: &mut Vec<Part>,
)
    requires rank { 0 < R.R }
    requires held { IsFront R.R held.old parts.old.items }
    requires room { R.LEN ≤ vec_capacity parts.old }
    requires room_longer { R.LEN ≤ vec_capacity longer.old }
    ensures parts { AreParts op.now (take (R.R - 1) (index_of R.R to)) parts.new.items }
    ensures held { IsFront R.R held.new parts.new.items }
    ensures room { R.LEN ≤ vec_capacity parts.new }
    ensures room_longer { R.LEN ≤ vec_capacity longer.new }
{
    let number = to.number() / 3;
    if is_held(held, op, number) {
        return;
    }
    fill(op, to, R::R - 1, parts, longer);
    *held = Some(Front { op: *op, number });
}

/// The parts of one component after the other, in a list with room for those of any component of a rank. Those of its
/// front stay for the next component.
#[derive(Drop)]
pub struct Parts<R: Rank> {
    held: Vec<Part>,
    front: Vec<Part>,
    of: Option<Front>,
    rank: PhantomData<R>,
}

impl<R: Rank> Model for Parts<R> {
    ghost use Rattle.std.specs.Prelude.{◌≤◌, List, vec_capacity};
    ghost use Rattle.tensor_action.specs.declared.parts.Part.{Part};
    ghost use Rattle.tensor_action.specs.Reaching.{IsFront};

    ghost Value = { List Part };

    ghost view = { λ p. p.held.items };

    ghost invariant = { λ p. (R.LEN ≤ vec_capacity p.held) × (R.LEN ≤ vec_capacity p.front) × IsFront R.R p.of p.front.items };
}

impl<R: Rank> Parts<R> {
    /// No parts yet.
    pub fn new(alloc: Global) -> Result<Parts<R>, AllocError>
        ensures { IfOk result (λ p. p ≡ []) }
    {
        let held = Vec::with_capacity(alloc, R::LEN)?;
        let front = Vec::with_capacity(alloc, R::LEN)?;
        Ok(Parts {
            held,
            front,
            of: None,
            rank: PhantomData,
        })
    }

    /// Holds the parts of a component, by rising numbers: those left out have the coefficient 0.
    pub fn set(&mut self, op: &Op, to: Comp<R>)
        ensures { AreParts op.now (index_of R.R to) self.new }
    {
        if R::R == 0 {
            self.of = None;
            fill(op, to, 0, &mut self.held, &mut self.front);
        } else {
            fill_front(op, to, &mut self.of, &mut self.front, &mut self.held);
            let row = to.digit(R::R - 1) as usize - 1;
            with_index(op, row, &self.front, &mut self.held);
        }
    }

    /// The parts that are held.
    pub fn as_slice(&self) -> &[Part]
        ensures { result.now ≡ self.now }
    {
        self.held.as_slice()
    }
}
