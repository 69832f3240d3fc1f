//! The matrices of the operators, entry by entry, and products of turns.
use super::*;
use crate::entry::Entry::{Half, HalfRoot3, MinusHalf, MinusHalfRoot3, MinusOne, One, Zero};

#[test]
#[rattlefmt::skip]
fn the_matrices_of_operators(rt: HostRuntime) {
    let rows = [
        (OpKind::Two, Direction::X, [One, Zero, Zero, Zero, MinusOne, Zero, Zero, Zero, MinusOne]),
        (OpKind::Two, Direction::Y, [MinusOne, Zero, Zero, Zero, One, Zero, Zero, Zero, MinusOne]),
        (OpKind::Two, Direction::Z, [MinusOne, Zero, Zero, Zero, MinusOne, Zero, Zero, Zero, One]),
        (OpKind::Two, Direction::XY, [Zero, One, Zero, One, Zero, Zero, Zero, Zero, MinusOne]),
        (OpKind::Two, Direction::XmY, [Zero, MinusOne, Zero, MinusOne, Zero, Zero, Zero, Zero, MinusOne]),
        (OpKind::Mirror, Direction::X, [MinusOne, Zero, Zero, Zero, One, Zero, Zero, Zero, One]),
        (OpKind::Mirror, Direction::Y, [One, Zero, Zero, Zero, MinusOne, Zero, Zero, Zero, One]),
        (OpKind::Mirror, Direction::Z, [One, Zero, Zero, Zero, One, Zero, Zero, Zero, MinusOne]),
        (OpKind::Mirror, Direction::XY, [Zero, MinusOne, Zero, MinusOne, Zero, Zero, Zero, Zero, One]),
        (OpKind::Mirror, Direction::XmY, [Zero, One, Zero, One, Zero, Zero, Zero, Zero, One]),
        (OpKind::Four, Direction::Z, [Zero, MinusOne, Zero, One, Zero, Zero, Zero, Zero, One]),
        (OpKind::Bar4, Direction::Z, [Zero, One, Zero, MinusOne, Zero, Zero, Zero, Zero, MinusOne]),
        (OpKind::Three, Direction::Z, [MinusHalf, MinusHalfRoot3, Zero, HalfRoot3, MinusHalf, Zero, Zero, Zero, One]),
        (OpKind::Bar3, Direction::Z, [Half, HalfRoot3, Zero, MinusHalfRoot3, Half, Zero, Zero, Zero, MinusOne]),
        (OpKind::Six, Direction::Z, [Half, MinusHalfRoot3, Zero, HalfRoot3, Half, Zero, Zero, Zero, One]),
        (OpKind::Bar6, Direction::Z, [MinusHalf, HalfRoot3, Zero, MinusHalfRoot3, MinusHalf, Zero, Zero, Zero, MinusOne]),
        (OpKind::Three, Direction::XYZ, [Zero, Zero, One, One, Zero, Zero, Zero, One, Zero]),
        (OpKind::Bar3, Direction::XYZ, [Zero, Zero, MinusOne, MinusOne, Zero, Zero, Zero, MinusOne, Zero]),
        (OpKind::Bar1, Direction::Z, [MinusOne, Zero, Zero, Zero, MinusOne, Zero, Zero, Zero, MinusOne]),
    ];
    for (kind, direction, entries) in rows {
        let found = generator(kind, direction, true);
        assert!(rt; found.is_some());
        if let Some(op) = found {
            assert!(rt; op.primed());
            for place in 0..9 {
                assert_eq!(rt; op.entry(place / 3, place % 3), entries[place], "{place}");
            }
        }
    }
}

#[test]
fn turns_and_the_inversion(rt: HostRuntime) {
    assert!(rt; generator(OpKind::Four, Direction::X, false).is_none());
    let (turn, inversion) = (
        generator(OpKind::Three, Direction::Z, false),
        generator(OpKind::Bar1, Direction::Z, true),
    );
    assert!(rt; turn.is_some() && inversion.is_some());
    if let (Some(turn), Some(inversion)) = (turn, inversion) {
        assert!(rt; !turn.is_plain() && !turn.is_diagonal());
        assert!(rt; turn.is_hex());
        assert_eq!(rt; turn.product(&turn), turn.inverse());
        assert_eq!(rt; (turn.det(), inversion.det()), (1, -1));
        assert!(rt; inversion.is_diagonal() && inversion.inverse() == inversion);
        assert!(rt; Op::identity().before(&Op::reversal()) && Op::reversal().before(&turn));
        assert!(rt; turn.before(&inversion) && !inversion.before(&turn));
        assert_eq!(rt; Op::at_place(inversion.place()), inversion);
    }
}
