//! The states of two groups, and a group that isn't a subgroup.
use super::*;
use group_symbol::read_group;
use magnetic_groups::build_group;
use op_matrix::Entry;
use std::test::Fail;

fn group_of(alloc: Global, text: &str) -> Option<Group> {
    let tree = read_group(text.as_bytes()).ok()?;
    build_group(alloc, &tree).ok()
}

fn states_of(alloc: Global, g: &str, f: &str) -> Option<Result<States, StateFault>> {
    Some(list_states(alloc, group_of(alloc, g)?, group_of(alloc, f)?))
}

/// The entries of the matrix, row by row: 1, 0, and m for -1.
fn shows(op: &Op, text: &str) -> bool {
    let bytes = text.as_bytes();
    for place in 0..9 {
        let shown = match op.entry(place / 3, place % 3) {
            Entry::One => b'1',
            Entry::Zero => b'0',
            _ => b'm',
        };
        if bytes.get(place) != Some(&shown) {
            return false;
        }
    }
    true
}

#[test]
fn states_of_4mm(rt: HostRuntime) -> Result<(), Fail> {
    let Some(Ok(states)) = states_of(rt.alloc(), "m-3m", "4mm") else {
        panic!(rt; "no states");
    };
    let rows = [
        "100010001",
        "10001000m",
        "100001010",
        "10000m010",
        "001100010",
        "00m100010",
    ];
    assert_eq!(rt; states.count(), 6);
    for k in 1..7 {
        if k <= states.count() {
            let least = states.representative(k);
            assert!(rt; shows(&least, rows[k - 1]), "{k}");
            assert!(rt; states.has(k, &least), "{k}");
            assert_eq!(rt; states.state_of(&least), Some(k));
        }
    }
    assert!(rt; states.state_of(&Op::reversal()).is_none());
    assert!(rt; states.whole().len() == 48 && states.sub().len() == 8);
    Ok(())
}

#[test]
fn counts_and_refusals(rt: HostRuntime) -> Result<(), Fail> {
    let Some(Ok(states)) = states_of(rt.alloc(), "m-3m", "3m@p") else {
        panic!(rt; "no states");
    };
    assert_eq!(rt; states.count(), 8);
    match states_of(rt.alloc(), "4/mmm", "6") {
        Some(Err(fault)) => assert_eq!(rt; fault, StateFault::NotSubgroup { first: 2 }),
        _ => panic!(rt; "6 isn't a subgroup of 4/mmm"),
    }
    Ok(())
}
