//! Worked components.

ghost use Rattle.std.specs.Prelude.{◌<◌};

use crate::{Comp, ExchangeMoves, Order, R2, R3, Rank, Shape, Sign, at_rank, compile};
use jahn_grammar::read_jahn;
use sign_moves::{Tabled, first_table};
use std::alloc::Global;
use std::test::Fail;

/// The representative of a component in index order, by its number, with the sign.
fn first_in<R: Rank>(alloc: Global, shape: &Shape<R>, number: u16) -> Option<(u16, Sign)> {
    let c = Comp::from_number(number)?;
    let classes = shape.classes(alloc).ok()?;
    let (first, sign) = classes.representative(&Order::index(), c)?;
    Some((first.number(), sign))
}

/// The same for the symbol that a word spells; none also where the word spells none.
fn first_of(alloc: Global, word: &str, number: u16) -> Option<(u16, Sign)> {
    if word.len() > 4000 {
        return None;
    }
    let jahn = read_jahn(alloc, word.as_bytes()).ok()?;
    let shape = compile(alloc, &jahn).ok()?;
    at_rank!(shape, s => first_in(alloc, &s, number))
}

/// Whether the table of first components in index order has this one.
fn is_first<R: Rank>(alloc: Global, shape: &Shape<R>, number: usize, first: u16) -> bool {
    let moves = ExchangeMoves::<R>::new(shape.exchanges());
    match Tabled::new(alloc, &moves) {
        Ok(tabled) => match first_table(alloc, &tabled, &Order::<R>::index()) {
            Ok(firsts) => firsts.get(number).is_some_and(|entry| entry.first == first),
            Err(_) => false,
        },
        Err(_) => false,
    }
}

/// The same for the symbol that a word spells, with its marks.
fn is_first_of(alloc: Global, word: &str, axial: bool, number: usize, first: u16) -> bool {
    if word.len() > 4000 {
        return false;
    }
    let Ok(jahn) = read_jahn(alloc, word.as_bytes()) else {
        return false;
    };
    let Ok(shape) = compile(alloc, &jahn) else {
        return false;
    };
    at_rank!(shape, s => s.flags().axial == axial && is_first(alloc, &s, number, first))
}

// T21 of [V2] and {V2}, T2211 of [[V2]2], T2112 of [{V2}2].
#[test]
fn symbols_have_representatives(rt: HostRuntime) -> Result<(), Fail> {
    let rows = [
        ("[V2]", 3, Some((1, Sign::Plus))),
        ("{V2}", 3, Some((1, Sign::Minus))),
        ("{V2}", 0, None),
        ("[[V2]2]", 36, Some((4, Sign::Plus))),
        ("[{V2}2]", 28, Some((10, Sign::Minus))),
    ];
    for (word, number, wanted) in rows {
        assert!(rt; first_of(rt.alloc(), word, number) == wanted);
    }
    assert!(rt; is_first_of(rt.alloc(), "e[[V2]2]", true, 36, 4));
    Ok(())
}

/// Whether one component of rank 2 comes before another where the two indices are a pair.
fn pair_precedes(one: usize, other: usize) -> bool {
    match Order::<R2>::of_blocks(&[2]) {
        Some(order) if one < 9 && other < 9 => order.before(Comp::at(one), Comp::at(other)),
        _ => false,
    }
}

// In the order of pairs T33 comes before T23, and T23 before T32.
#[test]
fn blocks_order_components(rt: HostRuntime) -> Result<(), Fail> {
    assert!(rt; Order::<R3>::of_blocks(&[2, 2]).is_none());
    assert!(rt; pair_precedes(8, 5) && pair_precedes(5, 7));
    assert!(rt; Comp::<R2>::from_number(9).is_none());
    assert!(rt; Comp::<R2>::at(7).digit(0) == 3);
    Ok(())
}
