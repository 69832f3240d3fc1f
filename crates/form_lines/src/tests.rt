//! Worked tables.
ghost use Rattle.std.specs.Prelude.{◌≡◌, ◌<◌, IsTrue, IfSome, unsigned_abs};
ghost use Rattle.tensor_defs.specs.Number.{limit};
ghost use Rattle.tensor_rank.specs.Orders.{ByIndex, before_at};
ghost use Rattle.constraint_rows.specs.WordRows.{AreSound, IsGiven, IsOwn};

use crate::write_table;
use constraint_rows::{Classes, Part, Row, axis_classes};
use group_symbol::read_group;
use jahn_grammar::read_jahn;
use magnetic_groups::build_group;
use reduced_form::{Form, SolveFault, eliminate, solve};
use std::alloc::Global;
use std::test::Fail;
use tensor_rank::{Comp, Order, Rank, Shape, Sign, at_rank, compile};

/// The table of a group in index order.
fn table_of<R: Rank>(alloc: Global, group: &str, shape: &Shape<R>) -> Option<Form<R>> {
    let tree = read_group(group.as_bytes()).ok()?;
    let group = build_group(alloc, &tree).ok()?;
    if !group.is_framed() {
        return None;
    }
    solve(alloc, &group, shape, &Order::index()).ok()
}

/// Whether the table of a group in index order has as many free components and these lines.
fn has_lines<R: Rank>(
    alloc: Global,
    group: &str,
    shape: &Shape<R>,
    count: usize,
    lines: &str,
) -> Option<bool> {
    let form = table_of(alloc, group, shape)?;
    let mut text = Vec::new(alloc);
    write_table(&form, &mut text).ok()?;
    Some(form.free_count() == count && text.as_slice() == lines.as_bytes())
}

/// The same for the symbol that a word spells.
fn tells(alloc: Global, group: &str, word: &str, count: usize, lines: &str) -> Option<bool> {
    if word.len() > 4000 {
        return None;
    }
    let jahn = read_jahn(alloc, word.as_bytes()).ok()?;
    let shape = compile(alloc, &jahn).ok()?;
    at_rank!(shape, s => has_lines(alloc, group, &s, count, lines))
}

#[test]
fn tables_have_lines(rt: HostRuntime) -> Result<(), Fail> {
    let rows = [
        ("m'm2'", "aeV", 1, "T1 = 0\nT2 free\nT3 = 0\n"),
        (
            "4/mmm",
            "[V2]",
            2,
            "T11 free\nT12 = 0\nT13 = 0\nT21 = 0\nT22 = T11\nT23 = 0\nT31 = 0\nT32 = 0\nT33 free\n",
        ),
        (
            "1",
            "{V2}",
            3,
            "T11 = 0\nT12 free\nT13 free\nT21 = -T12\nT22 = 0\nT23 free\nT31 = -T13\nT32 = -T23\nT33 = 0\n",
        ),
        (
            "6",
            "V2",
            3,
            "T11 free\nT12 free\nT13 = 0\nT21 = -T12\nT22 = T11\nT23 = 0\nT31 = 0\nT32 = 0\nT33 free\n",
        ),
    ];
    for (group, word, count, lines) in rows {
        assert_eq!(rt;
            tells(rt.alloc(), group, word, count, lines),
            Some(true),
            "{group} {word}"
        );
    }
    Ok(())
}

/// How many free components the table of a group in index order has; none also where memory was refused.
fn count_in<R: Rank>(alloc: Global, group: &str, shape: &Shape<R>) -> Option<usize> {
    let form = table_of(alloc, group, shape)?;
    Some(form.free_count())
}

/// The same for the symbol that a word spells.
fn count(alloc: Global, group: &str, word: &str) -> Option<usize> {
    if word.len() > 4000 {
        return None;
    }
    let jahn = read_jahn(alloc, word.as_bytes()).ok()?;
    let shape = compile(alloc, &jahn).ok()?;
    at_rank!(shape, s => count_in(alloc, group, &s))
}

#[test]
fn axis_tables_have_free_components(rt: HostRuntime) -> Result<(), Fail> {
    for (group, word, free) in [("32", "V[V2]", 2), ("6mm", "[V2]", 2)] {
        assert_eq!(rt;
            count(rt.alloc(), group, word),
            Some(free),
            "{group} {word}"
        );
    }
    Ok(())
}

/// Whether a component is its own representative.
fn is_own<R: Rank>(classes: &Classes<R>, c: Comp<R>) -> bool
    ensures { IsTrue result → IsOwn classes.now c }
{
    match classes.of(c) {
        Some((first, Sign::Plus)) => first.number() == c.number(),
        _ => false,
    }
}

/// The row of two whole numbers at the first two components, where it may be given to the elimination.
fn first_row<R: Rank>(
    alloc: Global,
    classes: &Classes<R>,
    order: &Order<R>,
    one: i64,
    other: i64,
) -> Option<Row<R>>
    requires one { unsigned_abs one < limit }
    requires other { unsigned_abs other < limit }
    ensures { IfSome result (IsGiven (before_at R.R order.now) classes.now) }
{
    let first = Comp::from_number(0)?;
    let second = Comp::from_number(1)?;
    if one == 0 || other == 0 || !order.before(first, second) {
        return None;
    }
    if !is_own(classes, first) || !is_own(classes, second) {
        return None;
    }
    let parts = [
        Part {
            component: 0,
            number: one,
        },
        Part {
            component: 1,
            number: other,
        },
    ];
    Row::of_parts(alloc, &parts).ok()
}

/// The classes of 6 in index order; none also where memory was refused.
fn classes_of_six<R: Rank>(alloc: Global, shape: &Shape<R>) -> Option<Classes<R>>
    ensures { IfSome result (AreSound R.LEN (before_at R.R ByIndex)) }
{
    let tree = read_group(b"6").ok()?;
    let group = build_group(alloc, &tree).ok()?;
    axis_classes(alloc, &group, shape, &Order::index()).ok()
}

/// Whether the elimination with no rows on the classes of 6 has these free components.
fn has_free<R: Rank>(alloc: Global, shape: &Shape<R>, want: &[u16]) -> Option<bool> {
    let order = Order::index();
    let classes = classes_of_six(alloc, shape)?;
    let none = Vec::new(alloc);
    let form = eliminate(alloc, &classes, &none, &order).ok()?;
    if form.free_count() != want.len() {
        return Some(false);
    }
    for place in 0..form.free_count() {
        if form.free_at(place).number() != want[place] {
            return Some(false);
        }
    }
    Some(true)
}

/// Whether the elimination on two rows, the first with a number as large as given, is refused as too large.
fn refused<R: Rank>(alloc: Global, shape: &Shape<R>, large: i64) -> Option<bool>
    requires { unsigned_abs large < limit }
{
    let order = Order::index();
    let classes = classes_of_six(alloc, shape)?;
    let first = first_row(alloc, &classes, &order, large, 1)?;
    let second = first_row(alloc, &classes, &order, -1, 1)?;
    match eliminate(alloc, &classes, &[first, second], &order) {
        Ok(_) => Some(false),
        Err(SolveFault::TooLarge) => Some(true),
        Err(SolveFault::NoMemory) => None,
    }
}

#[test]
fn eliminates_on_classes(rt: HostRuntime) -> Result<(), Fail> {
    let alloc = rt.alloc();
    let jahn = read_jahn(alloc, b"V2").ok().ok_or("a word")?;
    let shape = compile(alloc, &jahn).ok().ok_or("no memory")?;
    let free = at_rank!(&shape, s => has_free(alloc, &s, &[0, 1, 3, 4, 8]));
    assert_eq!(rt; free, Some(true));
    for (large, want) in [(4611686018427387903, true), (4611686018427387902, false)] {
        let is_refused = at_rank!(&shape, s => refused(alloc, &s, large));
        assert_eq!(rt; is_refused, Some(want));
    }
    Ok(())
}

/// The number of the last free component of a group's table.
fn last_free<R: Rank>(alloc: Global, group: &str, shape: &Shape<R>) -> Option<u16> {
    let form = table_of(alloc, group, shape)?;
    let last = form.free_count().checked_sub(1)?;
    Some(form.free_at(last).number())
}

/// Whether the tables of two groups are the same.
fn have_same_form<R: Rank>(
    alloc: Global,
    one: &str,
    other: &str,
    shape: &Shape<R>,
) -> Option<bool> {
    Some(table_of(alloc, one, shape)?.same_form(&table_of(alloc, other, shape)?))
}

/// The last free component under a group, and whether the table is that of another group.
fn compares(alloc: Global, one: &str, other: &str, word: &str) -> Option<(u16, bool)> {
    if word.len() > 4000 {
        return None;
    }
    let jahn = read_jahn(alloc, word.as_bytes()).ok()?;
    let shape = compile(alloc, &jahn).ok()?;
    at_rank!(shape, s => Some((last_free(alloc, one, &s)?, have_same_form(alloc, one, other, &s)?)))
}

#[test]
fn tables_are_compared(rt: HostRuntime) -> Result<(), Fail> {
    let rows = [
        ("2@z", "4", "V", 2, true),
        ("2", "4", "V", 1, false),
        ("4/mmm", "422", "[V2]", 8, true),
        ("6mm", "4mm", "[V2]", 8, true),
        ("1", "-1", "{V2}", 5, true),
    ];
    for (one, other, word, last, same) in rows {
        assert_eq!(rt;
            compares(rt.alloc(), one, other, word),
            Some((last, same)),
            "{one} {other} {word}"
        );
    }
    Ok(())
}
