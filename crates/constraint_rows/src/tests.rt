//! Worked components.
use crate::{Part, axis_classes, killed_by_diagonal, plain_classes, turning_rows, word_rows};
use group_symbol::read_group;
use jahn_grammar::read_jahn;
use magnetic_groups::{Group, build_group};
use std::alloc::Global;
use std::test::Fail;
use tensor_rank::{Comp, Order, Rank, Shape, Sign, at_rank, compile};

/// The class of a component, by its number, in index order; none also where memory was refused.
fn class_in<R: Rank>(
    alloc: Global,
    group: &str,
    shape: &Shape<R>,
    number: u16,
) -> Option<(u16, Sign)> {
    let tree = read_group(group.as_bytes()).ok()?;
    let group = build_group(alloc, &tree).ok()?;
    if !group.is_all_plain() {
        return None;
    }
    let classes = plain_classes(alloc, &group, shape, &Order::index()).ok()?;
    let (first, sign) = classes.of(Comp::from_number(number)?)?;
    Some((first.number(), sign))
}

/// The same for the symbol that a word spells.
fn class_of(alloc: Global, group: &str, word: &str, number: u16) -> Option<(u16, Sign)> {
    if word.len() > 4000 {
        return None;
    }
    let jahn = read_jahn(alloc, word.as_bytes()).ok()?;
    let shape = compile(alloc, &jahn).ok()?;
    at_rank!(shape, s => class_in(alloc, group, &s, number))
}

// T22 and T21 of 4/mmm [V2], T1, T2 and T3 of m'm2' aeV, T21 and T11 of 1 {V2}.
#[test]
fn components_have_classes(rt: HostRuntime) -> Result<(), Fail> {
    let rows = [
        ("4/mmm", "[V2]", 4, Some((0, Sign::Plus))),
        ("4/mmm", "[V2]", 3, None),
        ("m'm2'", "aeV", 0, None),
        ("m'm2'", "aeV", 1, Some((1, Sign::Plus))),
        ("m'm2'", "aeV", 2, None),
        ("1", "{V2}", 3, Some((1, Sign::Minus))),
        ("1", "{V2}", 0, None),
    ];
    for (group, word, number, class) in rows {
        assert_eq!(rt;
            class_of(rt.alloc(), group, word, number),
            class,
            "{group} {word}"
        );
    }
    Ok(())
}

/// The group of a symbol; none also where memory was refused.
fn group_of(alloc: Global, group: &str) -> Option<Group> {
    let tree = read_group(group.as_bytes()).ok()?;
    build_group(alloc, &tree).ok()
}

/// The class of a component on the hexagonal axes, by its number, in index order, where no diagonal element turns the
/// component round.
fn axis_class_in<R: Rank>(
    alloc: Global,
    group: &str,
    shape: &Shape<R>,
    number: u16,
) -> Option<(u16, Sign)> {
    let group = group_of(alloc, group)?;
    let c = Comp::from_number(number)?;
    if killed_by_diagonal(&group, shape.flags(), c) {
        return None;
    }
    let classes = axis_classes(alloc, &group, shape, &Order::index()).ok()?;
    let (first, sign) = classes.of(c)?;
    Some((first.number(), sign))
}

/// The same for the symbol that a word spells.
fn axis_class_of(alloc: Global, group: &str, word: &str, number: u16) -> Option<(u16, Sign)> {
    if word.len() > 4000 {
        return None;
    }
    let jahn = read_jahn(alloc, word.as_bytes()).ok()?;
    let shape = compile(alloc, &jahn).ok()?;
    at_rank!(shape, s => axis_class_in(alloc, group, &s, number))
}

// T13 and T12 of 6 V2, T13 and T12 of 6' aV2, T21 of 6 {V2}.
#[test]
fn axis_classes_are_worked(rt: HostRuntime) -> Result<(), Fail> {
    let rows = [
        ("6", "V2", 2, None),
        ("6", "V2", 1, Some((1, Sign::Plus))),
        ("6'", "aV2", 2, Some((2, Sign::Plus))),
        ("6'", "aV2", 1, None),
        ("6", "{V2}", 3, Some((1, Sign::Minus))),
    ];
    for (group, word, number, class) in rows {
        assert_eq!(rt;
            axis_class_of(rt.alloc(), group, word, number),
            class,
            "{group} {word}"
        );
    }
    Ok(())
}

/// Whether the row at a place, in index order, has these parts, and how many rows there are.
fn row_in<R: Rank>(
    alloc: Global,
    group: &str,
    shape: &Shape<R>,
    place: usize,
    parts: &[Part],
) -> Option<(usize, bool)> {
    let group = group_of(alloc, group)?;
    if !group.is_framed() || group.is_all_plain() {
        return None;
    }
    let rows = word_rows(alloc, &group, shape, &Order::index()).ok()?;
    Some((rows.len(), rows.get(place)?.parts() == parts))
}

/// The same for the symbol that a word spells.
fn row_of(
    alloc: Global,
    group: &str,
    word: &str,
    place: usize,
    parts: &[Part],
) -> Option<(usize, bool)> {
    if word.len() > 4000 {
        return None;
    }
    let jahn = read_jahn(alloc, word.as_bytes()).ok()?;
    let shape = compile(alloc, &jahn).ok()?;
    at_rank!(shape, s => row_in(alloc, group, &s, place, parts))
}

fn part(component: u16, number: i64) -> Part {
    Part { component, number }
}

// The words z+, +z and ++ of 3 V2: T31, T32, T13, T23, T11 - T22, T12 + T21.
#[test]
fn rows_are_worked(rt: HostRuntime) -> Result<(), Fail> {
    let singles = [6, 7, 2, 5];
    for (place, component) in singles.iter().enumerate() {
        assert_eq!(rt;
            row_of(rt.alloc(), "3", "V2", place, &[part(*component, 1)]),
            Some((6, true))
        );
    }
    let even = [part(0, 1), part(4, -1)];
    assert_eq!(rt; row_of(rt.alloc(), "3", "V2", 4, &even), Some((6, true)));
    let odd = [part(1, 1), part(3, 1)];
    assert_eq!(rt; row_of(rt.alloc(), "3", "V2", 5, &odd), Some((6, true)));
    Ok(())
}

// T12 + T21 is twice T12 for 3 [V2] and nothing for 3 {V2}; T31 is nothing for 6 V2.
#[test]
fn rows_are_carried_over(rt: HostRuntime) -> Result<(), Fail> {
    assert_eq!(rt;
        row_of(rt.alloc(), "3", "[V2]", 5, &[part(1, 2)]),
        Some((6, true))
    );
    assert_eq!(rt; row_of(rt.alloc(), "3", "{V2}", 5, &[]), Some((6, true)));
    assert_eq!(rt; row_of(rt.alloc(), "6", "V2", 0, &[]), Some((6, true)));
    Ok(())
}

/// Whether the row at a place has these parts, among the rows for all rotations about z over all components of a
/// rank, and how many rows there are.
fn turning_row_of<R: Rank>(
    alloc: Global,
    shape: &Shape<R>,
    place: usize,
    parts: &[Part],
) -> Option<(usize, bool)> {
    let none = Group::trivial(alloc).ok()?;
    let order = Order::index();
    let classes = axis_classes(alloc, &none, shape, &order).ok()?;
    let rows = turning_rows(alloc, &classes, &order).ok()?;
    Some((rows.len(), rows.get(place)?.parts() == parts))
}

// The word +++ of V3: T111 - T122 - T212 - T221 and T112 + T121 + T211 - T222; the word zz+ gives T331 before.
#[test]
fn turning_rows_are_worked(rt: HostRuntime) -> Result<(), Fail> {
    let rows = [
        (0, [part(24, 1)].to_vec(rt.alloc())?),
        (
            12,
            [part(0, 1), part(4, -1), part(10, -1), part(12, -1)].to_vec(rt.alloc())?,
        ),
        (
            13,
            [part(1, 1), part(3, 1), part(9, 1), part(13, -1)].to_vec(rt.alloc())?,
        ),
    ];
    for (place, parts) in &rows {
        let jahn = read_jahn(rt.alloc(), b"V3").ok().ok_or("V3")?;
        let shape = compile(rt.alloc(), &jahn).ok().ok_or("V3")?;
        assert_eq!(rt;
            at_rank!(shape, s => turning_row_of(rt.alloc(), &s, *place, parts.as_slice())),
            Some((20, true))
        );
    }
    Ok(())
}
