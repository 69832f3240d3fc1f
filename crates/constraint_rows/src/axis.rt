//! The classes of components on the hexagonal axes: those under the exchanges of a symbol's blocks, less the components
//! that a diagonal element of a group turns round.
ghost use Rattle.std.specs.Prelude.{◌≡◌, ℕ, ◌+◌, ◌<◌, ◌↔◌, ◌⊎◌, IfOk, OnOk, IsTrue, length, true};
ghost use Rattle.tensor_defs.specs.Elimination.{AreRepresentatives};
ghost use Rattle.tensor_defs.specs.Frames.{IsDiagonal};
ghost use Rattle.tensor_defs.specs.Jahn.{JahnSymbol};
ghost use Rattle.tensor_defs.specs.Tensor.{index_of};
ghost use Rattle.magnetic_groups.specs.Sets.{In};
ghost use Rattle.sign_moves.specs.Classes.{vanishes_at};
ghost use Rattle.sign_moves.specs.Firsts.{AreSettled};
ghost use Rattle.tensor_rank.specs.Flags.{marks_of};
ghost use Rattle.tensor_rank.specs.Orders.{before_at, before_of};
ghost use Rattle.tensor_rank.specs.Shapes.{IsShapeOf};
ghost use Rattle.constraint_rows.specs.Marking.{AreDiagonals, AreMarked, IsTurned, IsTurnedEntry, Kills, Turns};
ghost use Rattle.constraint_rows.specs.PlainOps.{AllHaveColumns};
ghost use Rattle.constraint_rows.specs.WordRows.{AreSound, IsKilled, carrier_of};

use crate::classing::Classes;
use crate::ops::PlainOp;
use crate::reading::plain_of;
use magnetic_groups::Group;
use op_matrix::Op;
use sign_moves::{Entry, NoMemory, Sign};
use std::alloc::Global;
use tensor_rank::{Comp, Flags, Order, Rank, Shape};

/// Whether a diagonal operation has coefficient -1 from a component to itself.
fn turns_round<R: Rank>(op: &Op, flags: Flags, c: Comp<R>) -> bool
    requires diagonal { IsDiagonal op.now }
    requires component { c < R.LEN }
    ensures { IsTrue result ↔ Turns (marks_of flags) (index_of R.R c) op.now }
{
    match plain_of(op, flags).carry(c).1 {
        Sign::Plus => false,
        Sign::Minus => true,
    }
}

/// Whether an operation is diagonal and has coefficient -1 from a component to itself.
fn kills<R: Rank>(op: &Op, flags: Flags, c: Comp<R>) -> bool
    requires { c < R.LEN }
    ensures { IsTrue result ↔ Kills (marks_of flags) (index_of R.R c) op.now }
{
    op.is_diagonal() && turns_round(op, flags, c)
}

/// Whether some diagonal element turns a component round: it has coefficient -1 from the component to itself.
pub fn killed_by_diagonal<R: Rank>(group: &Group, flags: Flags, c: Comp<R>) -> bool
    ensures { IsTrue result ↔ IsKilled (marks_of flags) (In group.now) (index_of R.R c) }
{
    // what the number tells of the component is for the proof
    let _number = c.number();
    for place in 0..group.len() {
        if kills(&group.at(place), flags, c) {
            return true;
        }
    }
    false
}

/// Takes the element at a place of a group, by its rows, if it is diagonal.
fn take_diagonal(
    ops: &mut Vec<PlainOp>,
    group: &Group,
    flags: Flags,
    place: usize,
) -> Result<(), NoMemory>
    requires place { place < length group.now }
    requires ops { AreDiagonals (marks_of flags) group.now place ops.old.items }
    ensures { OnOk result (AreDiagonals (marks_of flags) group.now (place + 1) ops.new.items) }
{
    let op = group.at(place);
    if !op.is_diagonal() {
        return Ok(());
    }
    ops.push(plain_of(&op, flags))?;
    Ok(())
}

/// The diagonal elements of a group by their rows, with the signs that tensors with these marks take.
fn diagonal_ops(alloc: Global, group: &Group, flags: Flags) -> Result<Vec<PlainOp>, NoMemory>
    ensures { IfOk result (λ ops. AreDiagonals (marks_of flags) group.now (length group.now) ops.items) }
{
    let mut ops = Vec::new(alloc);
    for place in 0..group.len() {
        take_diagonal(&mut ops, group, flags, place)?;
    }
    Ok(ops)
}

/// Whether one of these operations carries a component with the sign -1.
fn is_turned<R: Rank>(ops: &[PlainOp], c: Comp<R>) -> bool
    requires columns { AllHaveColumns ops.now }
    requires component { c < R.LEN }
    ensures { IsTrue result ↔ IsTurned R.R ops.now c }
{
    for place in 0..ops.len() {
        if ops[place].carry(c).1 == Sign::Minus {
            return true;
        }
    }
    false
}

/// An entry, marked to vanish also where one of these operations turns its first component round. Where that component
/// is among those whose entries are marked already, its entry tells it.
fn marked_entry<R: Rank>(entry: Entry, marked: &[Entry], ops: &[PlainOp]) -> Entry
    requires columns { AllHaveColumns ops.now }
    requires component { entry.first < R.LEN }
    requires told { entry.first < length marked.now → (vanishes_at marked.now entry.first ≡ true) ↔ ((entry.vanishes ≡ true) ⊎ IsTurned R.R ops.now entry.first) }
    ensures { IsTurnedEntry R.R ops.now entry result }
{
    let first = entry.first as usize;
    let vanishes = if first < marked.len() {
        marked[first].vanishes
    } else {
        entry.vanishes || is_turned::<R>(ops, Comp::at(first))
    };
    Entry {
        first: entry.first,
        sign: entry.sign,
        vanishes,
    }
}

/// The entries of a table, each marked to vanish also where a diagonal element turns its first component round.
fn marked_table<R: Rank>(
    alloc: Global,
    table: &[Entry],
    group: &Group,
    flags: Flags,
) -> Result<Vec<Entry>, NoMemory>
    requires { AreSettled R.LEN table.now }
    ensures { IfOk result (λ new. AreMarked R.R (marks_of flags) group.now table.now new.items) }
{
    let ops = diagonal_ops(alloc, group, flags)?;
    let mut marked = Vec::with_capacity(alloc, table.len())?;
    for number in 0..table.len() {
        let entry = marked_entry::<R>(table[number], &marked, &ops);
        marked.push(entry)?;
    }
    Ok(marked)
}

/// The classes under the exchanges of a symbol's blocks and the diagonal elements of a group: none where the symbol or
/// a diagonal element forces a component to zero, else its representative in the order and the sign.
pub fn axis_classes<R: Rank>(
    alloc: Global,
    group: &Group,
    shape: &Shape<R>,
    order: &Order<R>,
) -> Result<Classes<R>, NoMemory>
    ensures representatives { IfOk result (λ cs. (j : JahnSymbol) → IsShapeOf j R.R shape.now → AreRepresentatives j (In group.now) (before_of order.now) (carrier_of R.R cs)) }
    ensures sound { IfOk result (AreSound R.LEN (before_at R.R order.now)) }
{
    let table = shape.firsts(alloc, order)?;
    let marked = marked_table::<R>(alloc, &table, group, shape.flags())?;
    Ok(Classes::of_table(marked))
}
