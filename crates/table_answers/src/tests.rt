//! Worked answers.
ghost use Rattle.std.specs.Prelude.{IfSome};
ghost use Rattle.tensor_defs.specs.Frames.{IsFramed};
ghost use Rattle.tensor_defs.specs.Group.{InGroup};
ghost use Rattle.tensor_defs.specs.Lists.{IsListing};
ghost use Rattle.tensor_defs.specs.OperationOrder.{comes_before};
ghost use Rattle.magnetic_groups.specs.Sets.{In};

use crate::{answer_form, answer_same};
use group_symbol::{SymbolTree, read_group};
use jahn_grammar::read_jahn;
use magnetic_groups::{Group, build_group};
use std::alloc::Global;
use std::test::Fail;

/// The group of a symbol.
fn group_of(alloc: Global, tree: &SymbolTree) -> Option<Group>
    ensures listing { IfSome result (λ hs. IsListing comes_before (InGroup tree.now) hs) }
    ensures framed { IfSome result (λ hs. IsFramed (In hs)) }
{
    match build_group(alloc, tree) {
        Ok(group) => Some(group),
        Err(_) => None,
    }
}

/// Whether the form of a group and a symbol is this text, behind what stood there.
fn has_form(alloc: Global, group: &str, word: &str, text: &str) -> Option<bool> {
    if word.len() > 4000 {
        return None;
    }
    let tree = read_group(group.as_bytes()).ok()?;
    let elements = group_of(alloc, &tree)?;
    let jahn = read_jahn(alloc, word.as_bytes()).ok()?;
    let mut out = Vec::new(alloc);
    answer_form(alloc, &tree, &elements, &jahn, &mut out).ok()?;
    Some(out.as_slice() == text.as_bytes())
}

/// Whether the answer on the tensors of a symbol under two groups is this text.
fn has_same(alloc: Global, one: &str, other: &str, word: &str, text: &str) -> Option<bool> {
    if word.len() > 4000 {
        return None;
    }
    let g = read_group(one.as_bytes()).ok()?;
    let h = read_group(other.as_bytes()).ok()?;
    let first = group_of(alloc, &g)?;
    let second = group_of(alloc, &h)?;
    let jahn = read_jahn(alloc, word.as_bytes()).ok()?;
    let mut out = Vec::new(alloc);
    answer_same(alloc, &g, &h, &first, &second, &jahn, &mut out).ok()?;
    Some(out.as_slice() == text.as_bytes())
}

#[test]
fn forms_are_answered(rt: HostRuntime) -> Result<(), Fail> {
    let rows = [
        (
            "-1",
            "eV",
            "form -1 eV free 3 of 3\nT1 free\nT2 free\nT3 free\n",
        ),
        ("1", "1", "form 1 1 free 1 of 1\nT free\n"),
        ("-1", "e1", "form -1 e free 0 of 1\nT = 0\n"),
        (
            "m'm2'",
            "aeV",
            "form m'm2' aeV free 1 of 3\nT1 = 0\nT2 free\nT3 = 0\n",
        ),
        (
            "4/mmm",
            "[V2]",
            "form 4/mmm [V2] free 2 of 9\nT11 free\nT12 = 0\nT13 = 0\nT21 = 0\nT22 = T11\nT23 = 0\nT31 = 0\nT32 = 0\nT33 free\n",
        ),
        (
            "1",
            "{V2}",
            "form 1 {V2} free 3 of 9\nT11 = 0\nT12 free\nT13 free\nT21 = -T12\nT22 = 0\nT23 free\nT31 = -T13\nT32 = -T23\nT33 = 0\n",
        ),
    ];
    for (group, word, text) in rows {
        assert_eq!(rt;
            has_form(rt.alloc(), group, word, text),
            Some(true),
            "{group} {word}"
        );
    }
    Ok(())
}

#[test]
fn sameness_is_answered(rt: HostRuntime) -> Result<(), Fail> {
    let rows = [
        ("2@z", "4", "V", "same 2@z 4 V yes\n"),
        ("2", "4", "V", "same 2 4 V no\n"),
        ("2@z", "4", "[V2]", "same 2@z 4 [V2] no\n"),
    ];
    for (one, other, word, text) in rows {
        assert_eq!(rt;
            has_same(rt.alloc(), one, other, word, text),
            Some(true),
            "{one} {other} {word}"
        );
    }
    Ok(())
}
