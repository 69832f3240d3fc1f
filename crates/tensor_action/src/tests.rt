//! Worked actions.
ghost use Rattle.std.specs.Prelude.{◌^◌, ◌<◌, unsigned_abs};

use super::*;
use exact_frac::Frac;
use op_matrix::{Direction, Op, OpKind, generator};
use root3_num::Root3;
use std::alloc::Global;
use std::process::Abort;
use std::test::Fail;
use tensor_rank::{Comp, Flags, R1, R2, Rank, Sign, sign_of};

const POLAR: Flags = Flags {
    axial: false,
    magnetic: false,
};

/// The number a + b√3 with whole a and b.
fn number(a: i64, b: i64) -> Root3
    requires rational { unsigned_abs a < 2 ^ 62 }
    requires root { unsigned_abs b < 2 ^ 62 }
{
    Root3::of(Frac::of_whole(a), Frac::of_whole(b))
}

/// An operation on its axis; the identity where there is none.
fn operation(kind: OpKind, primed: bool) -> Op {
    generator(kind, Direction::Z, primed).unwrap_or(Op::identity())
}

/// The text of the coefficient between two components, by their numbers.
fn coefficient_is<R: Rank>(
    alloc: Global,
    op: &Op,
    flags: Flags,
    to: u16,
    from: u16,
    want: &str,
) -> bool {
    match (Comp::<R>::from_number(to), Comp::<R>::from_number(from)) {
        (Some(to), Some(from)) => {
            coefficient(op, flags, to, from).text(alloc).as_slice() == want.as_bytes()
        }
        _ => false,
    }
}

fn expect_texts(rt: &impl Abort, alloc: Global, numbers: &[Root3], want: &[&str]) {
    assert_eq!(rt; numbers.len(), want.len());
    for (number, text) in numbers.iter().zip(want) {
        assert_eq!(rt; number.text(alloc).as_slice(), text.as_bytes(), "{text}");
    }
}

#[test]
fn signs(rt: HostRuntime) {
    for (kind, primed, axial, magnetic, want) in [
        (OpKind::Bar1, false, false, false, Sign::Plus),
        (OpKind::Bar1, true, true, false, Sign::Minus),
        (OpKind::Bar1, true, true, true, Sign::Plus),
        (OpKind::Three, true, true, true, Sign::Minus),
        (OpKind::Three, true, true, false, Sign::Plus),
    ] {
        assert_eq!(rt;
            sign_of(&operation(kind, primed), Flags { axial, magnetic }),
            want
        );
    }
}

// R11·R12 = (-1/2)(-√3/2), R22·R21 = (-1/2)(√3/2), R11·R11 and R21·R21, with the sign of a primed magnetic one
#[test]
fn coefficients_of_the_threefold_rotation(rt: HostRuntime) {
    let turn = operation(OpKind::Three, true);
    let magnetic = Flags {
        axial: true,
        magnetic: true,
    };
    for (to, from, flags, want) in [
        (0, 1, POLAR, "1/4*r3"),
        (4, 3, POLAR, "-1/4*r3"),
        (0, 0, POLAR, "1/4"),
        (4, 0, POLAR, "3/4"),
        (4, 0, magnetic, "-3/4"),
        (0, 2, POLAR, "0"),
    ] {
        assert!(rt;
            coefficient_is::<R2>(rt.alloc(), &turn, flags, to, from, want),
            "{want}"
        );
    }
}

#[test]
fn the_inversion_turns_a_vector_round(rt: HostRuntime) -> Result<(), Fail> {
    let alloc = rt.alloc();
    let vector = [number(1, 0), number(0, 1), number(0, 0)];
    let inversion = operation(OpKind::Bar1, false);
    let carried = act::<R1>(alloc, &inversion, POLAR, &vector)?;
    expect_texts(&rt, alloc, &carried, &["-1", "-r3", "0"]);
    let axial = Flags {
        axial: true,
        magnetic: false,
    };
    let carried = act::<R1>(alloc, &inversion, axial, &vector)?;
    expect_texts(&rt, alloc, &carried, &["1", "r3", "0"]);
    let turn = operation(OpKind::Three, false);
    let carried = act::<R1>(alloc, &turn, POLAR, &vector)?;
    expect_texts(&rt, alloc, &carried, &["-2", "0", "0"]);
    Ok(())
}

// With x = 2p and y = 2k·√3 the first component is -p - 3k.
#[test]
fn a_sum_reaches_the_limit(rt: HostRuntime) -> Result<(), Fail> {
    let alloc = rt.alloc();
    let turn = operation(OpKind::Three, false);
    let y = number(0, 1537228672809129302);
    let short = [number(4611686018427387900, 0), y, number(0, 0)];
    let carried = act::<R1>(alloc, &turn, POLAR, &short)?;
    assert_eq!(rt; carried.len(), 3);
    assert_eq!(rt;
        carried[0].text(alloc).as_slice(),
        "-4611686018427387903".as_bytes()
    );
    let large = [number(4611686018427387902, 0), y, number(0, 0)];
    match act::<R1>(alloc, &turn, POLAR, &large) {
        Ok(_) => assert!(rt; false, "a sum of 2^62 is taken"),
        Err(fault) => assert_eq!(rt; fault, ActFault::TooLarge),
    }
    Ok(())
}
