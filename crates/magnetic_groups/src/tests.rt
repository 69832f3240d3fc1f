//! Orders of groups, and what is refused.
use super::*;
use group_symbol::read_group;
use std::test::Fail;

#[test]
fn orders_and_refusals(rt: HostRuntime) -> Result<(), Fail> {
    let rows = [
        ("1", 1),
        ("1'", 2),
        ("2'", 2),
        ("m'-3'm'", 48),
        ("m'-3'", 24),
        ("m'-3", 0),
        ("3'", 0),
        ("3m1'", 12),
        ("6/mmm", 24),
        ("m-3m1'", 96),
    ];
    for (text, order) in rows {
        let Ok(tree) = read_group(text.as_bytes()) else {
            panic!(rt; "{text} isn't read");
        };
        match build_group(rt.alloc(), &tree) {
            Ok(group) => {
                assert_eq!(rt; group.len(), order, "{text}");
                assert!(rt; group.is_framed() && group.has(&Op::identity()));
            }
            Err(fault) => {
                assert_eq!(rt; fault, GroupFault::Primes, "{text}");
                assert_eq!(rt; order, 0, "{text}");
            }
        }
    }
    Ok(())
}

#[test]
fn a_joined_group(rt: HostRuntime) -> Result<(), Fail> {
    let one = Group::trivial(rt.alloc())?;
    assert_eq!(rt; one.len(), 1);
    let reversal = Op::reversal();
    assert!(rt; reversal.is_plain() && one.is_all_plain());
    let grey = one.joined(rt.alloc(), &reversal)?;
    let kept = one.meet_conjugate(rt.alloc(), &reversal)?;
    assert!(rt; kept.len() == 1 && kept.at(0) == Op::identity() && kept.is_subset(&one));
    assert_eq!(rt; grey.len(), 2);
    assert_eq!(rt; grey.place_of(&reversal), Some(1));
    assert_eq!(rt; grey.first_outside(&one), Some(1));
    assert!(rt; one.is_subset(&grey) && !grey.is_subset(&one) && one.place_of(&reversal).is_none());
    let marks = grey.marks();
    assert!(rt; marks.len() == 2 && marks.has(&reversal) && marks.matrices() == 1);
    assert!(rt; one.marks().is_subset(&marks) && !marks.is_subset(&kept.marks()));
    assert_eq!(rt; marks.list(rt.alloc())?.at(1), reversal);
    Ok(())
}

#[test]
fn few_generators(rt: HostRuntime) -> Result<(), Fail> {
    let Ok(tree) = read_group(b"2/m") else {
        panic!(rt; "2/m isn't read");
    };
    let Ok(group) = build_group(rt.alloc(), &tree) else {
        panic!(rt; "2/m has no group");
    };
    let taken = group.greedy();
    assert_eq!(rt; taken.len(), 2);
    assert_eq!(rt;
        Some(taken.at(0)),
        generator(OpKind::Mirror, Direction::Y, false)
    );
    assert_eq!(rt;
        Some(taken.at(1)),
        generator(OpKind::Two, Direction::Y, false)
    );
    assert_eq!(rt; Group::trivial(rt.alloc())?.greedy().as_slice().len(), 0);
    Ok(())
}
