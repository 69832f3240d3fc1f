//! The elements that stay in the group when an operation carries them, and the group that an operation and it generate.
ghost use Rattle.std.specs.Prelude.{IfOk};
ghost use Rattle.tensor_defs.specs.Lists.{IsListing};
ghost use Rattle.tensor_defs.specs.OperationOrder.{comes_before};
ghost use Rattle.tensor_defs.specs.States.{InPairGroup, InTwinningGroup};
ghost use Rattle.magnetic_groups.specs.Sets.{FitsFrame, In};

use crate::{Group, GroupMarks, NoMemory};
use group_closing::{Marks, join_marks};
use op_matrix::Op;
use std::alloc::Global;

impl Group {
    /// The group of those elements h for which op⁻¹·h·op is an element, by its marks. Source: International Tables D 3.4.
    pub fn conjugate_marks(&self, op: &Op) -> GroupMarks
        requires { FitsFrame self.now op.now }
        ensures { IsListing comes_before (InPairGroup (In self.now) op.now) result }
    {
        let inverse = op.inverse();
        let mut marks = Marks::none();
        for place in 0..self.len() {
            let element = self.at(place);
            let half = inverse.product(&element);
            let carried = half.product(op);
            if self.has(&carried) {
                marks.mark(&element);
            }
        }
        GroupMarks::new(marks)
    }

    /// The group of all products of elements and the operation, by its marks.
    pub fn joined_marks(&self, op: &Op) -> GroupMarks
        requires { FitsFrame self.now op.now }
        ensures { IsListing comes_before (InTwinningGroup (In self.now) op.now) result }
    {
        let marks = join_marks(self.generators(), op, &self.elements, self.marks.copied());
        GroupMarks::new(marks)
    }

    /// The group of those elements h for which op⁻¹·h·op is an element. Source: International Tables D 3.4.
    pub fn meet_conjugate(&self, alloc: Global, op: &Op) -> Result<Group, NoMemory>
        requires { FitsFrame self.now op.now }
        ensures { IfOk result (λ g. IsListing comes_before (InPairGroup (In self.now) op.now) g) }
    {
        self.conjugate_marks(op).list(alloc)
    }
}
