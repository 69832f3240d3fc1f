//! The operations from which a group was closed, and few that generate it.
ghost use Rattle.std.specs.Prelude.{◌↔◌, Contains};
ghost use Rattle.tensor_defs.specs.Operation.{Operation};
ghost use Rattle.tensor_defs.specs.Frames.{AllOf};
ghost use Rattle.group_closing.specs.Greedy.{IsGreedy};
ghost use Rattle.magnetic_groups.specs.Sets.{In, Spanned};

use crate::Group;
use group_closing::{Greedy, greedy_of};
use op_matrix::Op;

impl Group {
    /// Elements whose products are the whole group.
    pub fn generators(&self) -> &[Op]
        ensures elements { AllOf (In result.now) (In self.now) }
        ensures spanned { (k : Operation) → Contains self.now k ↔ Spanned result.now k }
    {
        match &self.generators {
            Some(generators) => generators.as_slice(),
            None => &self.elements,
        }
    }

    /// The elements, in their order, each of which isn't a product of those taken before it.
    pub fn greedy(&self) -> Greedy
        ensures taken { IsGreedy self.now result }
        ensures spanned { (k : Operation) → Contains self.now k ↔ Spanned result k }
    {
        // a field that is read brings the invariant into the proof
        let _marks = &self.marks;
        greedy_of(&self.elements)
    }
}
