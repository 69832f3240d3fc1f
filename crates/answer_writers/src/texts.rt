//! The texts of the matrices.
ghost use Rattle.std.specs.Prelude.{◌≡◌};
ghost use Rattle.answer_writers.specs.Rows.{ending_of, matrix_text};

use op_matrix::Op;

/// The nine entries of each of the 64 matrices, in the order of operations, row by row with one space between two.
#[rattlefmt::skip]
static TEXTS: [&[u8]; 64] = [
    b"1 0 0 0 1 0 0 0 1",
    b"1 0 0 0 1 0 0 0 -1",
    b"1 0 0 0 0 1 0 1 0",
    b"1 0 0 0 0 1 0 -1 0",
    b"1 0 0 0 0 -1 0 1 0",
    b"1 0 0 0 0 -1 0 -1 0",
    b"1 0 0 0 -1 0 0 0 1",
    b"1 0 0 0 -1 0 0 0 -1",
    b"1/2 1/2*r3 0 1/2*r3 -1/2 0 0 0 1",
    b"1/2 1/2*r3 0 1/2*r3 -1/2 0 0 0 -1",
    b"1/2 1/2*r3 0 -1/2*r3 1/2 0 0 0 1",
    b"1/2 1/2*r3 0 -1/2*r3 1/2 0 0 0 -1",
    b"1/2 -1/2*r3 0 1/2*r3 1/2 0 0 0 1",
    b"1/2 -1/2*r3 0 1/2*r3 1/2 0 0 0 -1",
    b"1/2 -1/2*r3 0 -1/2*r3 -1/2 0 0 0 1",
    b"1/2 -1/2*r3 0 -1/2*r3 -1/2 0 0 0 -1",
    b"0 1 0 1 0 0 0 0 1",
    b"0 1 0 1 0 0 0 0 -1",
    b"0 1 0 0 0 1 1 0 0",
    b"0 1 0 0 0 1 -1 0 0",
    b"0 1 0 0 0 -1 1 0 0",
    b"0 1 0 0 0 -1 -1 0 0",
    b"0 1 0 -1 0 0 0 0 1",
    b"0 1 0 -1 0 0 0 0 -1",
    b"0 0 1 1 0 0 0 1 0",
    b"0 0 1 1 0 0 0 -1 0",
    b"0 0 1 0 1 0 1 0 0",
    b"0 0 1 0 1 0 -1 0 0",
    b"0 0 1 0 -1 0 1 0 0",
    b"0 0 1 0 -1 0 -1 0 0",
    b"0 0 1 -1 0 0 0 1 0",
    b"0 0 1 -1 0 0 0 -1 0",
    b"0 0 -1 1 0 0 0 1 0",
    b"0 0 -1 1 0 0 0 -1 0",
    b"0 0 -1 0 1 0 1 0 0",
    b"0 0 -1 0 1 0 -1 0 0",
    b"0 0 -1 0 -1 0 1 0 0",
    b"0 0 -1 0 -1 0 -1 0 0",
    b"0 0 -1 -1 0 0 0 1 0",
    b"0 0 -1 -1 0 0 0 -1 0",
    b"0 -1 0 1 0 0 0 0 1",
    b"0 -1 0 1 0 0 0 0 -1",
    b"0 -1 0 0 0 1 1 0 0",
    b"0 -1 0 0 0 1 -1 0 0",
    b"0 -1 0 0 0 -1 1 0 0",
    b"0 -1 0 0 0 -1 -1 0 0",
    b"0 -1 0 -1 0 0 0 0 1",
    b"0 -1 0 -1 0 0 0 0 -1",
    b"-1/2 1/2*r3 0 1/2*r3 1/2 0 0 0 1",
    b"-1/2 1/2*r3 0 1/2*r3 1/2 0 0 0 -1",
    b"-1/2 1/2*r3 0 -1/2*r3 -1/2 0 0 0 1",
    b"-1/2 1/2*r3 0 -1/2*r3 -1/2 0 0 0 -1",
    b"-1/2 -1/2*r3 0 1/2*r3 -1/2 0 0 0 1",
    b"-1/2 -1/2*r3 0 1/2*r3 -1/2 0 0 0 -1",
    b"-1/2 -1/2*r3 0 -1/2*r3 1/2 0 0 0 1",
    b"-1/2 -1/2*r3 0 -1/2*r3 1/2 0 0 0 -1",
    b"-1 0 0 0 1 0 0 0 1",
    b"-1 0 0 0 1 0 0 0 -1",
    b"-1 0 0 0 0 1 0 1 0",
    b"-1 0 0 0 0 1 0 -1 0",
    b"-1 0 0 0 0 -1 0 1 0",
    b"-1 0 0 0 0 -1 0 -1 0",
    b"-1 0 0 0 -1 0 0 0 1",
    b"-1 0 0 0 -1 0 0 0 -1",
];

/// The nine entries of an operation row by row, with one space between two.
pub fn matrix_text(op: &Op) -> &'static [u8]
    ensures { result.now ≡ matrix_text op.now }
{
    TEXTS[op.place() / 2]
}

/// What ends the line of an operation: `primed` where time reversal is joined, and LF.
pub fn ending_of(primed: bool) -> &'static [u8]
    ensures { result.now ≡ ending_of primed }
{
    if primed { b" primed\n" } else { b"\n" }
}
