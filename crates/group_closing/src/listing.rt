//! Marked operations listed in their order.
ghost use Rattle.std.specs.Prelude.{◌≡◌, ◌+◌, ◌<◌, ◌≤◌, ℕ, IfOk, length};
ghost use Rattle.std.specs.Int.{bit_at};
ghost use Rattle.group_closing.specs.Marks.{marked_below};

use crate::marks::Marks;
use op_matrix::Op;
use std::alloc::{AllocError, Global};

/// Appends the marked operations at some places, where those before are listed.
fn list_places(
    marks: &Marks,
    from: usize,
    to: usize,
    elements: &mut Vec<Op>,
) -> Result<(), AllocError>
    requires within { to ≤ 128 }
    requires order { from ≤ to }
    requires before { elements.old.items ≡ marked_below from marks.now }
    ensures { IfOk result (λ _. elements.new.items ≡ marked_below to marks.now) }
{
    for place in from..to {
        let operation = Op::at_place(place);
        if marks.has(&operation) {
            elements.push(operation)?;
        }
    }
    Ok(())
}

/// The least place from which on a digit 1 stands in a number, or 64.
fn next_digit(digits: u64, from: usize) -> usize
    requires { from ≤ 64 }
    ensures reaches { from ≤ result }
    ensures within { result ≤ 64 }
    ensures one { result < 64 → bit_at digits result ≡ 1 }
    ensures least { (c : ℕ) → from ≤ c → c < result → bit_at digits c ≡ 0 }
{
    if from == 64 {
        return 64;
    }
    let left = digits >> from;
    if left == 0 {
        return 64;
    }
    from + left.trailing_zeros() as usize
}

/// The marked operations, in their order.
pub fn list_marked(alloc: Global, marks: &Marks) -> Result<Vec<Op>, AllocError>
    ensures listed { IfOk result (λ v. v.items ≡ marked_below 128 marks.now) }
    ensures sized { length marks.now ≡ 128 }
{
    let mut elements = Vec::with_capacity(alloc, marks.count())?;
    let matrices = marks.matrices();
    let mut matrix = next_digit(matrices, 0);
    while matrix < 64 {
        list_places(marks, 2 * matrix, 2 * matrix + 2, &mut elements)?;
        matrix = next_digit(matrices, matrix + 1);
    }
    Ok(elements)
}
