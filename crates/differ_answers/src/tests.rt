//! Worked answers.
ghost use Rattle.std.specs.Prelude.{IfSome};
ghost use Rattle.tensor_defs.specs.Frames.{IsFramed};
ghost use Rattle.tensor_defs.specs.Group.{InGroup};
ghost use Rattle.tensor_defs.specs.Lists.{IsListing};
ghost use Rattle.tensor_defs.specs.OperationOrder.{comes_before};
ghost use Rattle.magnetic_groups.specs.Sets.{In};

use crate::{DifferAnswerFault, answer_differ};
use group_symbol::{SymbolTree, read_group};
use jahn_grammar::read_jahn;
use magnetic_groups::{Group, build_group};
use std::alloc::Global;
use std::test::Fail;

/// The group of a symbol.
fn group_of(alloc: Global, tree: &SymbolTree) -> Option<Group>
    ensures listing { IfSome result (λ hs. IsListing comes_before (InGroup tree.now) hs) }
    ensures framed { IfSome result (λ hs. IsFramed (In hs)) }
{
    match build_group(alloc, tree) {
        Ok(group) => Some(group),
        Err(_) => None,
    }
}

/// The answer for two groups and a symbol behind a byte, or the fault.
fn answered(
    alloc: Global,
    whole: &str,
    sub: &str,
    word: &str,
) -> Option<Result<Vec<u8>, DifferAnswerFault>> {
    if word.len() > 4000 {
        return None;
    }
    let g = read_group(whole.as_bytes()).ok()?;
    let f = read_group(sub.as_bytes()).ok()?;
    let first = group_of(alloc, &g)?;
    let second = group_of(alloc, &f)?;
    let jahn = read_jahn(alloc, word.as_bytes()).ok()?;
    let mut out = Vec::new(alloc);
    out.push(b'>').ok()?;
    Some(
        match answer_differ(alloc, &g, &f, first, second, &jahn, &mut out) {
            Ok(()) => Ok(out),
            Err(fault) => Err(fault),
        },
    )
}

/// Whether the answer for two groups and a symbol is this text.
fn has_answer(alloc: Global, whole: &str, sub: &str, word: &str, text: &str) -> Option<bool> {
    let out = answered(alloc, whole, sub, word)?.ok()?;
    Some(out.as_slice() == text.as_bytes())
}

#[test]
fn components_that_distinguish_states(rt: HostRuntime) -> Result<(), Fail> {
    let rows = [
        (
            "6/mmm",
            "mmm",
            "[V2]",
            ">differ 6/mmm mmm [V2] states 3 free T11 T22 T33\nstate 2 differs 4 of 9\nT11 = 1/4*T11+3/4*T22\nT12 = 1/4*r3*T11-1/4*r3*T22\nT21 = 1/4*r3*T11-1/4*r3*T22\nT22 = 3/4*T11+1/4*T22\nstate 3 differs 4 of 9\nT11 = 1/4*T11+3/4*T22\nT12 = -1/4*r3*T11+1/4*r3*T22\nT21 = -1/4*r3*T11+1/4*r3*T22\nT22 = 3/4*T11+1/4*T22\n",
        ),
        (
            "m-3m",
            "4mm",
            "V",
            ">differ m-3m 4mm V states 6 free T3\nstate 2 differs 1 of 3\nT3 = -T3\nstate 3 differs 2 of 3\nT2 = T3\nT3 = 0\nstate 4 differs 2 of 3\nT2 = -T3\nT3 = 0\nstate 5 differs 2 of 3\nT1 = T3\nT3 = 0\nstate 6 differs 2 of 3\nT1 = -T3\nT3 = 0\n",
        ),
        (
            "11'",
            "1",
            "aeV",
            ">differ 11' 1 aeV states 2 free T1 T2 T3\nstate 2 differs 3 of 3\nT1 = -T1\nT2 = -T2\nT3 = -T3\n",
        ),
        ("1", "1", "{V4}", ">differ 1 1 {V4} states 1 free none\n"),
    ];
    for (whole, sub, word, text) in rows {
        let right = has_answer(rt.alloc(), whole, sub, word, text).ok_or("no answer")?;
        assert!(rt; right, "{word} of {whole} and {sub}");
    }
    Ok(())
}

#[test]
fn an_element_outside_is_told(rt: HostRuntime) -> Result<(), Fail> {
    match answered(rt.alloc(), "4/mmm", "6", "V").ok_or("no answer")? {
        Ok(_) => assert!(rt; false, "6 isn't below 4/mmm"),
        Err(fault) => assert_eq!(rt; fault, DifferAnswerFault::NotSubgroup { first: 2 }),
    }
    Ok(())
}
