//! Vectors and their stabilisers.
use crate::{Verdict, Whole, check, stabiliser};
use exact_frac::Frac;
use group_symbol::read_group;
use jahn_grammar::read_jahn;
use magnetic_groups::build_group;
use root3_num::Root3;
use std::alloc::Global;
use std::process::Abort;
use std::test::Fail;
use tensor_rank::{AnyShape, Flags, R1, compile};

/// A vector of whole numbers and multiples of √3.
fn vector(parts: [(i32, i32); 3]) -> [Root3; 3] {
    let zero = Frac::zero();
    let mut numbers = [Root3::of(zero, zero); 3];
    for place in 0..3 {
        let (a, b) = parts[place];
        numbers[place] = Root3::of(Frac::of_whole(i64::from(a)), Frac::of_whole(i64::from(b)));
    }
    numbers
}

/// The verdict as the place of an element and the number of a component, each 0 where there is none.
fn verdict_of(alloc: Global, group: &str, t: &[Root3; 3]) -> Result<(usize, u16), Fail> {
    let group = build_group(alloc, &read_group(group.as_bytes())?)?;
    let AnyShape::One(shape) = compile(alloc, &read_jahn(alloc, b"V")?)? else {
        return Ok((1000, 0));
    };
    Ok(match check(alloc, &group, &shape, t)? {
        Verdict::Invariant => (0, 0),
        Verdict::Symmetry { c } => (0, c.number() + 1),
        Verdict::Element { place, c } => (place, c.number() + 1),
    })
}

#[test]
fn vectors_are_judged(rt: HostRuntime) -> Result<(), Fail> {
    let alloc = rt.alloc();
    let polar = Flags {
        axial: false,
        magnetic: false,
    };
    for (group, whole, parts, verdict, order) in [
        ("4mm", Whole::Cubic, [(0, 0), (0, 0), (1, 0)], (0, 0), 16),
        ("2@z", Whole::Cubic, [(1, 0), (0, 0), (0, 0)], (2, 1), 16),
        ("3", Whole::Hexagonal, [(0, 1), (0, 0), (0, 0)], (2, 1), 8),
    ] {
        let t = vector(parts);
        assert!(rt; verdict_of(alloc, group, &t)? == verdict);
        assert_eq!(rt; stabiliser::<R1>(alloc, whole, polar, &t)?.len(), order);
    }
    Ok(())
}

// a magnetisation along z is left by 4/mm'm' and 6/mm'm'
#[test]
fn magnetisations_have_stabilisers(rt: HostRuntime) -> Result<(), Fail> {
    let alloc = rt.alloc();
    let magnetisation = Flags {
        axial: true,
        magnetic: true,
    };
    let t = vector([(0, 0), (0, 0), (1, 0)]);
    for (whole, order) in [(Whole::Cubic, 16), (Whole::Hexagonal, 24)] {
        assert_eq!(rt;
            stabiliser::<R1>(alloc, whole, magnetisation, &t)?.len(),
            order
        );
    }
    Ok(())
}
