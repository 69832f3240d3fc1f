//! Groups closed from generators, and the group of given marks.
ghost use Rattle.std.specs.Prelude.{◌≡◌, IfOk};
ghost use Rattle.tensor_defs.specs.Lists.{IsListing};
ghost use Rattle.tensor_defs.specs.OperationOrder.{comes_before};
ghost use Rattle.group_closing.specs.Marks.{marked_below};
ghost use Rattle.magnetic_groups.specs.Sets.{HaveFrame, IsGroup, Spanned};

use crate::Group;
use group_closing::{Marks, close_marks, list_marked};
use group_symbol::Generators;
use std::alloc::{AllocError, Global};

/// The group of all products of the generators.
pub fn close(alloc: Global, generators: Generators) -> Result<Group, AllocError>
    requires { HaveFrame generators }
    ensures { IfOk result (λ g. IsListing comes_before (Spanned generators) g) }
{
    let marks = close_marks(generators.as_slice());
    let elements = list_marked(alloc, &marks)?;
    Ok(Group {
        elements,
        marks,
        generators: Some(generators),
    })
}

/// The group of the marked operations. All of its elements generate it.
pub fn of_marks(alloc: Global, marks: Marks) -> Result<Group, AllocError>
    requires { IsGroup (marked_below 128 marks) }
    ensures { IfOk result (λ g. g ≡ marked_below 128 marks) }
{
    let elements = list_marked(alloc, &marks)?;
    Ok(Group {
        elements,
        marks,
        generators: None,
    })
}
