//! Tables of limiting groups beside those of hexagonal groups.
use crate::{Curie, curie_form};
use constraint_rows::{axis_classes, plain_classes};
use group_symbol::read_group;
use jahn_grammar::read_jahn;
use magnetic_groups::build_group;
use reduced_form::solve;
use std::alloc::Global;
use std::test::Fail;
use tensor_rank::{Comp, Order, Rank, Shape, Sign, at_rank, compile};

/// Whether the table of a limiting group is that of a point group; none also where memory was refused.
fn agree_in<R: Rank>(alloc: Global, group: Curie, symbol: &str, shape: &Shape<R>) -> Option<bool> {
    let tree = read_group(symbol.as_bytes()).ok()?;
    let elements = build_group(alloc, &tree).ok()?;
    if !elements.is_framed() {
        return None;
    }
    let other = solve(alloc, &elements, shape, &Order::index()).ok()?;
    Some(curie_form(alloc, group, shape).ok()?.same_form(&other))
}

/// The same for the symbol that a word spells.
fn agree(alloc: Global, group: Curie, symbol: &str, word: &str) -> Option<bool> {
    if word.len() > 4000 {
        return None;
    }
    let jahn = read_jahn(alloc, word.as_bytes()).ok()?;
    let shape = compile(alloc, &jahn).ok()?;
    at_rank!(shape, s => agree_in(alloc, group, symbol, &s))
}

// A sixfold rotation multiplies the sum of a word by a power of a number whose sixth power is the first that is 1. So
// up to rank 5 it leaves the same tensors unchanged as all rotations; at rank 6 it leaves more.
#[test]
fn sixfold_groups_agree_up_to_rank_5(rt: HostRuntime) -> Result<(), Fail> {
    let pairs = [
        (Curie::Inf, "6"),
        (Curie::InfM, "6mm"),
        (Curie::Inf2, "622"),
        (Curie::InfOverM, "6/m"),
        (Curie::InfOverMM, "6/mmm"),
    ];
    for (group, symbol) in pairs {
        for word in ["1", "eV", "V2", "e[V2]V", "[[V2]2]", "[V5]"] {
            assert_eq!(rt;
                agree(rt.alloc(), group, symbol, word),
                Some(true),
                "{symbol} {word}"
            );
        }
        assert_eq!(rt;
            agree(rt.alloc(), group, symbol, "[V6]"),
            Some(false),
            "{symbol}"
        );
    }
    Ok(())
}

/// The number of the component that stands for a class, and the sign.
fn numbered<R: Rank>(class: Option<(Comp<R>, Sign)>) -> Option<(u16, Sign)> {
    let (first, sign) = class?;
    Some((first.number(), sign))
}

/// Whether the two ways to the classes of a group of diagonal operations give the same; none also where memory was
/// refused.
fn same_classes_in<R: Rank>(alloc: Global, symbol: &str, shape: &Shape<R>) -> Option<bool> {
    let tree = read_group(symbol.as_bytes()).ok()?;
    let group = build_group(alloc, &tree).ok()?;
    if !group.is_all_plain() {
        return None;
    }
    let order = Order::index();
    let plain = plain_classes(alloc, &group, shape, &order).ok()?;
    let axis = axis_classes(alloc, &group, shape, &order).ok()?;
    for number in 0..R::LEN {
        let c = Comp::at(number);
        if numbered(plain.of(c)) != numbered(axis.of(c)) {
            return Some(false);
        }
    }
    Some(true)
}

/// The same for the symbol that a word spells.
fn same_classes(alloc: Global, symbol: &str, word: &str) -> Option<bool> {
    if word.len() > 4000 {
        return None;
    }
    let jahn = read_jahn(alloc, word.as_bytes()).ok()?;
    let shape = compile(alloc, &jahn).ok()?;
    at_rank!(shape, s => same_classes_in(alloc, symbol, &s))
}

// The classes of the diagonal members, by the exchanges and the components that a member turns round, and as those of
// any group of signed permutation matrices.
#[test]
fn diagonal_members_have_plain_classes(rt: HostRuntime) -> Result<(), Fail> {
    for symbol in ["2@z", "mm2", "222", "2/m@z", "mmm"] {
        for word in ["e", "V", "e{V2}V", "[{V2}2]", "V5"] {
            assert_eq!(rt;
                same_classes(rt.alloc(), symbol, word),
                Some(true),
                "{symbol} {word}"
            );
        }
    }
    Ok(())
}
