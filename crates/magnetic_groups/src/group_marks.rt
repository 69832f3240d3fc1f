//! Groups by the marks of their elements alone.
ghost use Rattle.std.specs.Prelude.{◌≡◌, ◌<◌, ◌↔◌, ℕ, IfOk, IsTrue, Contains, length};
ghost use Rattle.std.specs.Int.{bit_at};
ghost use Rattle.group_closing.specs.Marks.{marked_below};
ghost use Rattle.magnetic_groups.specs.Sets.{HasForm, In, IsGroup, IsWithin};

use crate::closing::of_marks;
use crate::{Group, NoMemory};
use group_closing::Marks;
use op_matrix::Op;
use std::alloc::Global;
use std::marker::Model;

/// A group by the marks of its elements.
#[derive(Drop)]
pub struct GroupMarks {
    marks: Marks,
}

impl Model for GroupMarks {
    ghost use Rattle.std.specs.Prelude.{List};
    ghost use Rattle.tensor_defs.specs.Operation.{Operation};
    ghost use Rattle.group_closing.specs.Marks.{marked_below};
    ghost use Rattle.magnetic_groups.specs.Sets.{IsGroup};

    ghost Value = { List Operation };

    ghost view = { λ s. marked_below 128 s.marks };

    ghost invariant = { λ s. IsGroup (marked_below 128 s.marks) };
}

impl GroupMarks {
    /// The group of the marked operations.
    pub fn new(marks: Marks) -> GroupMarks
        requires { IsGroup (marked_below 128 marks) }
        ensures { result ≡ marked_below 128 marks }
    {
        GroupMarks { marks }
    }

    /// The number of elements.
    pub fn len(&self) -> usize
        ensures is { result ≡ length self.now }
        ensures group { IsGroup self.now }
    {
        self.marks.count()
    }

    /// Whether it is an element.
    pub fn has(&self, op: &Op) -> bool
        ensures { IsTrue result ↔ Contains self.now op.now }
    {
        self.marks.has(op)
    }

    /// Whether each element is in the other group.
    pub fn is_subset(&self, other: &GroupMarks) -> bool
        ensures { IsTrue result ↔ IsWithin self.now other.now }
    {
        self.marks.is_within(&other.marks)
    }

    /// The matrices of the elements: a binary digit for each of the 64, the least significant one for the identity.
    pub fn matrices(&self) -> u64
        ensures { (c : ℕ) → c < 64 → (bit_at result c ≡ 1) ↔ HasForm (In self.now) c }
    {
        self.marks.matrices()
    }
    /// The group with its elements in their order.
    pub fn list(&self, alloc: Global) -> Result<Group, NoMemory>
        ensures { IfOk result (λ g. g ≡ self.now) }
    {
        let group = of_marks(alloc, self.marks.copied())?;
        Ok(group)
    }
}
