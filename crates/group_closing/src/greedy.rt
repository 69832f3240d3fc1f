//! Few generators of a group: going through its elements in order, each that isn't a product of those taken so far.
ghost use Rattle.std.specs.Prelude.{◌≡◌, ◌<◌, ◌≤◌, ◌↔◌, length, Contains, [], ◌∷◌, ◌++◌, false, slice_get, Some};
ghost use Rattle.tensor_defs.specs.Operation.{Operation};
ghost use Rattle.op_matrix.specs.Table.{place};
ghost use Rattle.group_closing.specs.Greedy.{IsDoubled, IsGreedy, IsSpan};
ghost use Rattle.group_closing.specs.Marks.{Grows, mark_at};
ghost use Rattle.group_closing.specs.Sets.{HaveFrame, In, IsGroup, Spanned};
ghost use Rattle.tensor_defs.specs.Frames.{AllOf};

use crate::closing::{add, finish};
use crate::found::Found;
use crate::marks::Marks;
use op_matrix::Op;
use std::marker::Model;

/// The most operations that are taken: each at least doubles the group of those taken before it, and no group has
/// more than 96 elements.
const MOST: usize = 6;

/// At most six operations, in the order in which they were taken.
#[derive(Drop)]
pub struct Greedy {
    operations: [Op; MOST],
    len: usize,
}

impl Model for Greedy {
    ghost use Rattle.std.specs.Prelude.{◌≤◌, List, take};
    ghost use Rattle.tensor_defs.specs.Operation.{Operation};

    ghost Value = { List Operation };

    ghost view = { λ g. take g.len g.operations };

    ghost invariant = { λ g. g.len ≤ 6 };
}

impl Greedy {
    /// No operations.
    fn none() -> Greedy
        ensures { result ≡ [] }
    {
        Greedy {
            operations: [Op::identity(); MOST],
            len: 0,
        }
    }

    /// Puts an operation at the end.
    fn push(&mut self, operation: Op)
        requires { length self.old < 6 }
        ensures { self.new ≡ self.old ++ operation ∷ [] }
    {
        self.operations[self.len] = operation;
        self.len += 1;
    }

    /// The operations.
    pub fn as_slice(&self) -> &[Op]
        ensures value { result.now ≡ self.now }
        ensures few { length self.now ≤ 6 }
    {
        &self.operations[..self.len]
    }

    /// How many they are, at most six.
    pub fn len(&self) -> usize
        ensures value { result ≡ length self.now }
        ensures few { result ≤ 6 }
    {
        self.as_slice().len()
    }

    /// The operation at a place, counted from 0.
    pub fn at(&self, place: usize) -> Op
        requires { place < length self.now }
        ensures { slice_get self.now place ≡ Some result }
    {
        self.as_slice()[place]
    }
}

/// The operations taken so far, and the group of their products: its marks, and its elements as they were found.
#[derive(Drop)]
struct Span {
    taken: Greedy,
    marks: Marks,
    found: Found,
}

impl Span {
    /// Nothing taken: the group of the identity alone.
    fn new() -> Span
        ensures none { result.taken ≡ [] }
        ensures span { IsSpan result.taken result.marks result.found }
    {
        let mut marks = Marks::none();
        let mut found = Found::none();
        add(Op::identity(), &mut marks, &mut found);
        Span {
            taken: Greedy::none(),
            marks,
            found,
        }
    }

    /// Whether the operation is a product of those taken.
    fn has(&self, operation: &Op) -> bool
        ensures { result ≡ mark_at self.now.marks (place operation.now) }
    {
        self.marks.has(operation)
    }

    /// Adds the products of a new operation with the elements: as many again.
    fn double(&mut self, operation: &Op)
        requires span { IsSpan self.old.taken self.old.marks self.old.found }
        requires frame { HaveFrame (self.old.taken ++ operation.now ∷ []) }
        requires new { mark_at self.old.marks (place operation.now) ≡ false }
        ensures taken { self.new.taken ≡ self.old.taken }
        ensures doubled { IsDoubled self.old.taken operation.now (length self.old.found) self.old.marks self.old.found self.new.marks self.new.found }
    {
        for place in 0..self.found.len() {
            let element = self.found.at(place);
            add(
                operation.product(&element),
                &mut self.marks,
                &mut self.found,
            );
        }
    }

    /// Takes a new operation, and closes the group again.
    fn take(&mut self, operation: &Op)
        requires span { IsSpan self.old.taken self.old.marks self.old.found }
        requires frame { HaveFrame (self.old.taken ++ operation.now ∷ []) }
        requires new { mark_at self.old.marks (place operation.now) ≡ false }
        ensures taken { self.new.taken ≡ self.old.taken ++ operation.now ∷ [] }
        ensures span { IsSpan self.new.taken self.new.marks self.new.found }
        ensures grows { Grows self.old.marks self.old.found self.new.marks self.new.found }
    {
        let before = self.found.len();
        self.double(operation);
        self.taken.push(*operation);
        finish(
            self.taken.as_slice(),
            before,
            &mut self.marks,
            &mut self.found,
        );
    }
}

/// The generators taken from the elements of a group.
pub fn greedy_of(elements: &[Op]) -> Greedy
    requires { IsGroup elements.now }
    ensures elements { AllOf (In result) (In elements.now) }
    ensures taken { IsGreedy elements.now result }
    ensures spanned { (k : Operation) → Contains elements.now k ↔ Spanned result k }
{
    let mut span = Span::new();
    for element in elements {
        if !span.has(element) {
            span.take(element);
        }
    }
    let Span {
        taken,
        marks: _,
        found: _,
    } = span;
    taken
}
