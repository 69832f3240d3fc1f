//! Worked values of fractions.
use super::*;
use std::alloc::Global;
use std::process::Abort;
use std::test::Fail;

fn expect_text(rt: &impl Abort, alloc: Global, fraction: Frac, want: &str) {
    assert_eq!(rt;
        fraction.text(alloc).as_slice(),
        want.as_bytes(),
        "for {want}"
    );
}

#[test]
fn makes_fractions(rt: HostRuntime) -> Result<(), Fail> {
    for (num, den, want) in [
        (6, -4, "-3/2"),
        (0, -7, "0"),
        (i64::MIN, i64::MIN, "1"),
        (i64::MIN, 4, "-2305843009213693952"),
        (1, i64::MAX, "too large"),
        (4611686018427387904, 1, "too large"),
        (4611686018427387903, 1, "4611686018427387903"),
        (
            -4611686018427387903,
            4611686018427387902,
            "-4611686018427387903/4611686018427387902",
        ),
        (1, 0, "zero"),
        (0, 0, "zero"),
    ] {
        match Frac::new(num, den) {
            Ok(fraction) => expect_text(&rt, rt.alloc(), fraction, want),
            Err(FracFault::TooLarge) => assert_eq!(rt; "too large", want),
            Err(FracFault::ZeroDenominator) => assert_eq!(rt; "zero", want),
        }
    }
    Ok(())
}

#[test]
fn reckons(rt: HostRuntime) -> Result<(), Fail> {
    let alloc = rt.alloc();
    let third = Frac::new(1, 3)?;
    let half = Frac::new(1, 2)?;
    expect_text(&rt, alloc, third.add(&Frac::new(1, 6)?)?, "1/2");
    expect_text(&rt, alloc, third.sub(&half)?, "-1/6");
    expect_text(&rt, alloc, third.mul(&Frac::new(-3, 2)?)?, "-1/2");
    expect_text(&rt, alloc, Frac::one().neg().add(&Frac::of_whole(3))?, "2");
    assert!(rt; !half.is_zero() && Frac::zero().is_zero());
    expect_text(&rt, alloc, Frac::new(-3, 2)?.div(&half)?, "-3");
    let most = Frac::of_whole(4611686018427387903);
    assert!(rt; most.add(&Frac::one()).is_err() && most.mul(&most).is_err());
    assert!(rt;
        Frac::new(2305843009213693952, 1)?
            .mul(&Frac::of_whole(2))
            .is_err()
    );
    assert_eq!(rt; (third.num(), third.den()), (1, 3));
    Ok(())
}
