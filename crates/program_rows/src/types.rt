//! The 122 types of magnetic point group: the orders of their groups, which of them admit a magnetisation or a
//! magnetoelectric effect, and how many components of five tensors are free.
use crate::runs::begins;
use std::alloc::Global;
use std::process::Abort;
use std::test::Fail;
use tensor_vectors::{order_row, symbol_row};

/// The type with this number from 1 to 122.
fn type_of(number: usize) -> &'static str {
    symbol_row(number).unwrap_or("")
}

#[test]
fn orders(rt: HostRuntime) -> Result<(), Fail> {
    let alloc = rt.alloc();
    for number in 1..123 {
        let group = type_of(number);
        let order = order_row(number).unwrap_or(0);
        let line = format!(in alloc; "group {group}")?;
        let front = format!(in alloc; "group {group} order {order}\n")?;
        assert!(rt; begins(alloc, &line, &front)?, "{group}");
    }
    Ok(())
}

/// The types with a free component of `aeV`, that is of a magnetisation.
static MAGNETIC: [usize; 31] = [
    1, 3, 6, 8, 9, 11, 12, 16, 19, 22, 23, 27, 29, 32, 35, 43, 47, 52, 58, 60, 62, 67, 70, 75, 76,
    79, 82, 90, 94, 99, 105,
];

/// The types with a free component of `aeV2`, that is of a magnetoelectric effect.
static MAGNETOELECTRIC: [usize; 58] = [
    1, 5, 6, 8, 9, 11, 14, 15, 17, 19, 20, 22, 23, 26, 28, 29, 31, 32, 34, 38, 39, 40, 42, 43, 44,
    46, 47, 48, 50, 51, 52, 55, 57, 59, 60, 64, 65, 67, 68, 70, 73, 74, 76, 81, 85, 87, 90, 91, 94,
    97, 98, 102, 106, 107, 111, 112, 117, 122,
];

/// Of all types, exactly these have a free component of the tensor.
fn expect_types(rt: &impl Abort, alloc: Global, tensor: &str, types: &[usize]) -> Result<(), Fail> {
    for number in 1..123 {
        let group = type_of(number);
        let line = format!(in alloc; "form {group} {tensor}")?;
        let front = format!(in alloc; "{line} free ")?;
        assert!(rt; begins(alloc, &line, &front)?, "{group}");
        let none = format!(in alloc; "{front}0 of ")?;
        let is_free = !begins(alloc, &line, &none)?;
        assert_eq!(rt; is_free, types.contains(&number), "{group}");
    }
    Ok(())
}

#[test]
fn magnetic(rt: HostRuntime) -> Result<(), Fail> {
    expect_types(&rt, rt.alloc(), "aeV", &MAGNETIC)
}

#[test]
fn magnetoelectric(rt: HostRuntime) -> Result<(), Fail> {
    expect_types(&rt, rt.alloc(), "aeV2", &MAGNETOELECTRIC)
}

/// Five kinds of tensor: vectors, symmetric tensors of rank 2, piezoelectric, elastic of the second and of the third order.
static TENSORS: [&str; 5] = ["V", "[V2]", "V[V2]", "[[V2]2]", "[[V2]3]"];

/// The number of each crystal class without time reversal, and how many components of the five tensors are free. The grey class
/// follows it, with the same counts.
#[rattlefmt::skip]
static CLASSES: [(usize, [usize; 5]); 32] = [
    (1, [3, 6, 18, 21, 56]),
    (3, [0, 6, 0, 21, 56]),
    (6, [1, 4, 8, 13, 32]),
    (9, [2, 4, 10, 13, 32]),
    (12, [0, 4, 0, 13, 32]),
    (17, [0, 3, 3, 9, 20]),
    (20, [1, 3, 5, 9, 20]),
    (24, [0, 3, 0, 9, 20]),
    (29, [1, 2, 4, 7, 16]),
    (32, [0, 2, 4, 7, 16]),
    (35, [0, 2, 0, 7, 16]),
    (40, [0, 2, 1, 6, 12]),
    (44, [1, 2, 3, 6, 12]),
    (48, [0, 2, 2, 6, 12]),
    (53, [0, 2, 0, 6, 12]),
    (60, [1, 2, 6, 7, 20]),
    (62, [0, 2, 0, 7, 20]),
    (65, [0, 2, 2, 6, 14]),
    (68, [1, 2, 4, 6, 14]),
    (71, [0, 2, 0, 6, 14]),
    (76, [1, 2, 4, 5, 12]),
    (79, [0, 2, 2, 5, 12]),
    (82, [0, 2, 0, 5, 12]),
    (87, [0, 2, 1, 5, 10]),
    (91, [1, 2, 3, 5, 10]),
    (95, [0, 2, 1, 5, 10]),
    (100, [0, 2, 0, 5, 10]),
    (107, [0, 1, 1, 3, 8]),
    (109, [0, 1, 0, 3, 8]),
    (112, [0, 1, 0, 3, 6]),
    (115, [0, 1, 1, 3, 6]),
    (118, [0, 1, 0, 3, 6]),
];

/// The free components of the five tensors in a group.
fn expect_class(
    rt: &impl Abort,
    alloc: Global,
    group: &str,
    counts: &[usize; 5],
) -> Result<(), Fail> {
    for place in 0..5 {
        let line = format!(in alloc; "form {group} {}", TENSORS[place])?;
        let front = format!(in alloc; "{line} free {} of ", counts[place])?;
        assert!(rt; begins(alloc, &line, &front)?, "{line}");
    }
    Ok(())
}

#[test]
fn classes(rt: HostRuntime) -> Result<(), Fail> {
    for (number, counts) in &CLASSES {
        expect_class(&rt, rt.alloc(), type_of(*number), counts)?;
    }
    Ok(())
}

#[test]
fn grey_classes(rt: HostRuntime) -> Result<(), Fail> {
    for (number, counts) in &CLASSES {
        let grey = type_of(number.saturating_add(1));
        assert!(rt; grey.ends_with("1'"));
        expect_class(&rt, rt.alloc(), grey, counts)?;
    }
    Ok(())
}
