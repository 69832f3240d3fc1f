//! The classes of two pairs of groups.
use super::*;
use coset_states::list_states;
use group_symbol::read_group;
use magnetic_groups::build_group;
use std::test::Fail;

fn group_of(alloc: Global, text: &str) -> Option<Group> {
    let tree = read_group(text.as_bytes()).ok()?;
    build_group(alloc, &tree).ok()
}

fn classes_of(alloc: Global, g: &str, f: &str) -> Option<Vec<PairClass>> {
    let states = list_states(alloc, group_of(alloc, g)?, group_of(alloc, f)?).ok()?;
    pair_classes(alloc, &states).ok()
}

/// The least state, how many states, whether swappable, the pair group and the twinning group, each with its order.
type Row = (usize, usize, bool, &'static str, usize, &'static str, usize);

fn fits(class: &PairClass, row: &Row) -> bool {
    let (least, count, swappable, pair, pair_order, twin, twin_order) = *row;
    if class.members.len() != count || class.members.len() == 0 || class.members.at(0) != least {
        return false;
    }
    class.swappable == swappable
        && class.pair_name == read_group(pair.as_bytes()).ok()
        && class.pair_group.len() == pair_order
        && class.twin_name == read_group(twin.as_bytes()).ok()
        && class.twin_group.len() == twin_order
}

#[test]
fn classes_with_names(rt: HostRuntime) -> Result<(), Fail> {
    let cubic = [
        (1, 1, true, "4mm", 8, "4mm", 8),
        (2, 1, true, "4mm", 8, "4/mmm", 16),
        (3, 4, true, "m@x", 2, "m-3m", 48),
    ];
    let tetragonal = [
        (1, 1, true, "1", 1, "1", 1),
        (2, 1, false, "1", 1, "4", 4),
        (3, 1, false, "1", 1, "4", 4),
        (4, 1, true, "1", 1, "2@z", 2),
    ];
    let Some(classes) = classes_of(rt.alloc(), "m-3m", "4mm") else {
        panic!(rt; "no classes");
    };
    assert_eq!(rt; classes.len(), 3);
    for (class, row) in classes.iter().zip(cubic.iter()) {
        assert!(rt; fits(class, row));
    }
    let Some(classes) = classes_of(rt.alloc(), "4", "1") else {
        panic!(rt; "no classes");
    };
    assert_eq!(rt; classes.len(), 4);
    for (class, row) in classes.iter().zip(tetragonal.iter()) {
        assert!(rt; fits(class, row));
    }
    Ok(())
}
