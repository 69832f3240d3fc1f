//! Worked rows.
ghost use Rattle.std.specs.Prelude.{IfSome};
ghost use Rattle.tensor_defs.specs.Frames.{IsFramed};
ghost use Rattle.magnetic_groups.specs.Sets.{In};

use super::*;
use coset_states::{States, list_states};
use group_symbol::read_group;
use jahn_grammar::read_jahn;
use magnetic_groups::{Group, build_group};
use std::alloc::Global;
use std::process::Abort;
use std::test::Fail;
use tensor_rank::{AnyShape, Comp, R2, Shape, compile};

/// The group of a symbol.
fn group_of(alloc: Global, word: &str) -> Option<Group>
    ensures { IfSome result (λ hs. IsFramed (In hs)) }
{
    let tree = read_group(word.as_bytes()).ok()?;
    match build_group(alloc, &tree) {
        Ok(group) => Some(group),
        Err(_) => None,
    }
}

/// The states of the first group under the second.
fn states_of(alloc: Global, whole: &str, sub: &str) -> Option<States>
    ensures { IfSome result (λ s. IsFramed (In s.sub)) }
{
    let whole = group_of(alloc, whole)?;
    let sub = group_of(alloc, sub)?;
    match list_states(alloc, whole, sub) {
        Ok(states) => Some(states),
        Err(_) => None,
    }
}

/// The shape of a symbol of rank 2.
fn shape_of(alloc: Global, word: &str) -> Option<Shape<R2>> {
    if word.len() > 4000 {
        return None;
    }
    let jahn = read_jahn(alloc, word.as_bytes()).ok()?;
    match compile(alloc, &jahn) {
        Ok(AnyShape::Two(shape)) => Some(shape),
        _ => None,
    }
}

fn expect_row(rt: &impl Abort, alloc: Global, row: &[RootTerm], want: &[(u16, &str)]) {
    assert_eq!(rt; row.len(), want.len());
    for (term, (free, text)) in row.iter().zip(want) {
        assert_eq!(rt; term.free, *free);
        assert_eq!(rt;
            term.factor.text(alloc).as_slice(),
            text.as_bytes(),
            "{text}"
        );
    }
}

// T'12 = (T11 - T22)·√3/4 under the threefold rotation
#[test]
fn strains_of_a_hexagonal_parent(rt: HostRuntime) -> Result<(), Fail> {
    let alloc = rt.alloc();
    let states = states_of(alloc, "6/mmm", "mmm").ok_or("no states")?;
    let shape = shape_of(alloc, "[V2]").ok_or("no shape")?;
    let marks = differ(alloc, &states, &shape)?;
    assert_eq!(rt; states.count(), 3);
    assert_eq!(rt; marks.form().free_count(), 3);
    for (number, want) in [(0, true), (1, true), (2, false), (4, true), (8, false)] {
        assert_eq!(rt; marks.is_marked(2, Comp::at(number)), want);
    }
    expect_row(
        &rt,
        alloc,
        marks.row(2, Comp::at(1)),
        &[(0, "1/4*r3"), (1, "-1/4*r3")],
    );
    expect_row(
        &rt,
        alloc,
        marks.row(3, Comp::at(4)),
        &[(0, "3/4"), (1, "1/4")],
    );
    expect_row(&rt, alloc, marks.row(3, Comp::at(2)), &[]);
    Ok(())
}
