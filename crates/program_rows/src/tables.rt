//! Large component tables, by their lines that aren't zero, or by how many of them are free and zero; and groups by their orders.
use crate::runs::{answer, begins, count_lines, expect_not_zero, lines_by_end};
use std::alloc::Global;
use std::process::Abort;
use std::str::from_utf8;
use std::test::Fail;

/// Tables with their lines that aren't zero, and how many others there are.
static NOT_ZERO: [(&str, &str, usize); 3] = [
    (
        "form 32 V[V2]",
        "form 32 V[V2] free 2 of 27\nT111 free\nT122 = -T111\nT123 free\nT132 = T123\nT212 = -T111\nT213 = -T123\nT221 = -T111\nT231 = -T123\n",
        19,
    ),
    ("form m-3m1' aeV2", "form m-3m1' aeV2 free 0 of 9\n", 9),
    ("form 1 {V4}", "form 1 {V4} free 0 of 81\n", 81),
];

#[test]
fn not_zero(rt: HostRuntime) -> Result<(), Fail> {
    for (line, want, zeros) in &NOT_ZERO {
        expect_not_zero(&rt, rt.alloc(), line, want, *zeros)?;
    }
    Ok(())
}

/// The free components of the group m-3m and of elastic tensors of the third order.
const CUBIC: &str =
    "T111111 free\nT111122 free\nT111212 free\nT112233 free\nT112323 free\nT121323 free\n";

#[test]
fn free_in_cubic(rt: HostRuntime) -> Result<(), Fail> {
    let out = answer(rt.alloc(), "form m-3m [[V2]3]")?;
    let free = lines_by_end(rt.alloc(), &out, " free\n", true)?;
    assert_eq!(rt; from_utf8(&free)?, CUBIC);
    Ok(())
}

/// Tables of rank 6, with how many components are free and how many are zero.
static COUNTS: [(&str, usize, usize); 6] = [
    ("form 3 V6", 243, 12),
    ("form 1 V6", 729, 0),
    ("form m-3m [[V2]3]", 6, 546),
    ("form 6mm [[V2]3]", 10, 546),
    ("form 32 [[V2]3]", 14, 370),
    ("form 6 V6", 143, 364),
];

/// The answer to a line has a header and 729 lines, and so many of them are free and zero.
fn expect_counts(
    rt: &impl Abort,
    alloc: Global,
    line: &str,
    free: usize,
    zeros: usize,
) -> Result<(), Fail> {
    let out = answer(alloc, line)?;
    let front = format!(in alloc; "{line} free {free} of 729\n")?;
    assert!(rt; out.starts_with(front.as_bytes()), "{line}");
    let free_lines = lines_by_end(alloc, &out, " free\n", true)?;
    let zero_lines = lines_by_end(alloc, &out, " = 0\n", true)?;
    let counts = (
        count_lines(&free_lines),
        count_lines(&zero_lines),
        count_lines(&out),
    );
    assert_eq!(rt; counts, (free, zeros, 730), "{line}");
    Ok(())
}

#[test]
fn counts(rt: HostRuntime) -> Result<(), Fail> {
    for (line, free, zeros) in &COUNTS {
        expect_counts(&rt, rt.alloc(), line, *free, *zeros)?;
    }
    Ok(())
}

#[test]
fn eight_states(rt: HostRuntime) -> Result<(), Fail> {
    let out = answer(rt.alloc(), "states m-3m 3m@p")?;
    assert!(rt; out.starts_with(b"states m-3m 3m@p count 8\nstate 1 1 0 0 0 1 0 0 0 1\n"));
    assert!(rt; out.ends_with(b"\nstate 8 0 0 -1 0 -1 0 -1 0 0\n"));
    assert_eq!(rt; count_lines(&out), 9);
    Ok(())
}

/// Requests for groups, and the first lines of the answers.
static ORDERS: [(&str, &str); 10] = [
    ("group m'-3'", "group m'-3' order 24\n"),
    ("group 6'/mmm'", "group 6'/mmm' order 24\n"),
    ("group 2/m1'@xy", "group 2/m1'@xy order 8\n"),
    ("group mm2@d", "group mm2@d order 4\n"),
    ("group 3m@p", "group 3m@p order 6\n"),
    ("group 2@y", "group 2 order 2\n"),
    ("group 321'", "group 321' order 12\n"),
    ("group 3211'", "group 3211' order 12\n"),
    ("group 3m1'", "group 3m1' order 12\n"),
    ("group 3m11'", "group 3m11' order 12\n"),
];

#[test]
fn orders(rt: HostRuntime) -> Result<(), Fail> {
    for (line, front) in &ORDERS {
        assert!(rt; begins(rt.alloc(), line, front)?, "{line}");
    }
    Ok(())
}
