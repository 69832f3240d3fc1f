//! The reading of an operation as a signed permutation matrix with a sign for the whole tensor.
ghost use Rattle.std.specs.Prelude.{◌≡◌, ◌<◌};
ghost use Rattle.tensor_defs.specs.Frames.{IsPlain};
ghost use Rattle.tensor_defs.specs.Operation.{value};
ghost use Rattle.op_matrix.specs.View.{axis};
ghost use Rattle.tensor_rank.specs.Flags.{marks_of};
ghost use Rattle.constraint_rows.specs.PlainOps.{StandsFor};
ghost use Rattle.constraint_rows.specs.Reading.{RowReads, is_minus, is_unit, row_negates, unit_column};

use crate::ops::PlainOp;
use op_matrix::{Entry, Op};
use tensor_rank::{Flags, sign_of};

/// Where a row of a signed permutation matrix has its entry, and whether it is -1.
#[derive(Clone, Copy)]
struct RowEntry {
    column: u8,
    negates: bool,
}

/// Whether an entry is 1 or -1.
fn is_unit(entry: Entry) -> bool
    ensures { result ≡ is_unit entry }
{
    match entry {
        Entry::One | Entry::MinusOne => true,
        _ => false,
    }
}

/// Whether an entry is -1.
fn is_minus(entry: Entry) -> bool
    ensures { result ≡ is_minus entry }
{
    match entry {
        Entry::MinusOne => true,
        _ => false,
    }
}

/// The first column, from 0, of a row whose entry is 1 or -1; the third where the first two aren't.
fn unit_column(first: Entry, second: Entry) -> u8
    ensures { result ≡ unit_column first second }
{
    if is_unit(first) {
        0
    } else if is_unit(second) {
        1
    } else {
        2
    }
}

/// Whether one of the entries of a row is -1.
fn row_negates(first: Entry, second: Entry, third: Entry) -> bool
    ensures { result ≡ row_negates first second third }
{
    if is_minus(first) || is_minus(second) {
        true
    } else {
        is_minus(third)
    }
}

/// The entry of a row of a signed permutation matrix.
fn row_of(op: &Op, row: usize) -> RowEntry
    requires row { row < 3 }
    requires plain { IsPlain op.now }
    ensures { RowReads (value op.now (axis row)) result.column result.negates }
{
    let first = op.entry(row, 0);
    let second = op.entry(row, 1);
    let third = op.entry(row, 2);
    RowEntry {
        column: unit_column(first, second),
        negates: row_negates(first, second, third),
    }
}

/// A plain operation by its rows, with the sign that tensors with these marks take.
pub fn plain_of(op: &Op, flags: Flags) -> PlainOp
    requires { IsPlain op.now }
    ensures { StandsFor (marks_of flags) op.now result }
{
    let first = row_of(op, 0);
    let second = row_of(op, 1);
    let third = row_of(op, 2);
    PlainOp {
        images: [first.column, second.column, third.column],
        negates: [first.negates, second.negates, third.negates],
        whole: sign_of(op, flags),
    }
}
