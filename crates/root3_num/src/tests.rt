//! Worked values of numbers a + b√3.
use super::*;
use exact_frac::Frac;
use std::test::Fail;

#[test]
fn shows_numbers(rt: HostRuntime) -> Result<(), Fail> {
    for (a, b, want) in [
        ((1, 2), (-3, 4), "1/2-3/4*r3"),
        ((0, 1), (-1, 1), "-r3"),
        ((0, 1), (1, 2), "1/2*r3"),
        ((2, 1), (1, 1), "2+r3"),
        ((-5, 3), (0, 1), "-5/3"),
        ((0, 1), (0, 1), "0"),
        ((1, 1), (-2, 3), "1-2/3*r3"),
    ] {
        let number = Root3::of(Frac::new(a.0, a.1)?, Frac::new(b.0, b.1)?);
        assert_eq!(rt;
            number.text(rt.alloc()).as_slice(),
            want.as_bytes(),
            "for {want}"
        );
    }
    Ok(())
}

#[test]
fn reckons(rt: HostRuntime) -> Result<(), Fail> {
    let plus = Root3::of(Frac::one(), Frac::one());
    let minus = Root3::of(Frac::one(), Frac::one().neg());
    assert_eq!(rt;
        plus.mul(&minus)?.text(rt.alloc()).as_slice(),
        "-2".as_bytes()
    );
    assert!(rt; plus.sub(&plus)?.is_zero() && plus.add(&plus.neg())?.is_zero() && !plus.is_zero());
    assert!(rt; plus.same(&plus) && !plus.same(&minus));
    let large = Root3::of(Frac::zero(), Frac::of_whole(2305843009213693951));
    assert!(rt;
        large.add(&large).is_ok()
            && large.mul(&plus).is_err()
            && large.add(&large)?.sub(&large.neg()).is_err()
    );
    Ok(())
}
