//! Worked answers.
ghost use Rattle.std.specs.Prelude.{IfSome};
ghost use Rattle.tensor_defs.specs.Frames.{IsFramed};
ghost use Rattle.tensor_defs.specs.Group.{InGroup};
ghost use Rattle.tensor_defs.specs.Lists.{IsListing};
ghost use Rattle.tensor_defs.specs.OperationOrder.{comes_before};
ghost use Rattle.magnetic_groups.specs.Sets.{In};

use crate::{VoigtFault, Weights, answer_voigt};
use group_symbol::{SymbolTree, read_group};
use jahn_grammar::read_jahn;
use magnetic_groups::{Group, build_group};
use std::alloc::Global;
use std::test::Fail;

/// The group of a symbol.
fn group_of(alloc: Global, tree: &SymbolTree) -> Option<Group>
    ensures listing { IfSome result (λ hs. IsListing comes_before (InGroup tree.now) hs) }
    ensures framed { IfSome result (λ hs. IsFramed (In hs)) }
{
    match build_group(alloc, tree) {
        Ok(group) => Some(group),
        Err(_) => None,
    }
}

/// The answer for a group and a symbol, behind the byte x.
fn answer(
    alloc: Global,
    group: &str,
    word: &str,
    weights: Weights,
) -> Option<Result<Vec<u8>, VoigtFault>> {
    if word.len() > 4000 {
        return None;
    }
    let tree = read_group(group.as_bytes()).ok()?;
    let elements = group_of(alloc, &tree)?;
    let jahn = read_jahn(alloc, word.as_bytes()).ok()?;
    let mut out = Vec::new(alloc);
    out.push(b'x').ok()?;
    match answer_voigt(alloc, &tree, &elements, &jahn, weights, &mut out) {
        Ok(_) => Some(Ok(out)),
        Err(fault) if out.as_slice() == b"x".as_slice() => Some(Err(fault)),
        Err(_) => None,
    }
}

/// Whether a line says that an entry is 0.
fn is_zero(line: &str) -> bool {
    line.ends_with(" = 0")
}

/// Whether the lines of an answer that don't say `= 0` are these, and how many lines there are.
fn has_lines(text: &[u8], count: usize, lines: &str) -> bool {
    let Ok(text) = str::from_utf8(text) else {
        return false;
    };
    text.lines().count() == count && text.lines().filter(|line| !is_zero(line)).eq(lines.lines())
}

#[test]
fn tables_are_answered(rt: HostRuntime) -> Result<(), Fail> {
    let rows = [
        (
            "6mm",
            "[[V2]2]",
            Weights::Plain,
            37,
            "xvoigt 6mm [[V2]2] c free 5\nc11 free\nc12 free\nc13 free\nc21 = c12\nc22 = c11\nc23 = c13\nc31 = c13\nc32 = c13\nc33 free\nc44 free\nc55 = c44\nc66 = 1/2*c11-1/2*c12\n",
        ),
        (
            "6mm",
            "[[V2]2]",
            Weights::Shear,
            37,
            "xvoigt 6mm [[V2]2] s free 5\ns11 free\ns12 free\ns13 free\ns21 = s12\ns22 = s11\ns23 = s13\ns31 = s13\ns32 = s13\ns33 free\ns44 free\ns55 = s44\ns66 = 2*s11-2*s12\n",
        ),
        (
            "32",
            "V[V2]",
            Weights::Shear,
            19,
            "xvoigt 32 V[V2] s free 2\ns11 free\ns12 = -s11\ns14 free\ns25 = -s14\ns26 = -2*s11\n",
        ),
        (
            "2@xy",
            "[V2]",
            Weights::Plain,
            7,
            "xvoigt 2@xy [V2] c free 4\nc1 free\nc2 = c1\nc3 free\nc4 free\nc5 = -c4\nc6 free\n",
        ),
        (
            "m-3m",
            "[V2]2",
            Weights::Shear,
            37,
            "xvoigt m-3m [V2]2 s free 3\ns11 free\ns12 free\ns13 = s12\ns21 = s12\ns22 = s11\ns23 = s12\ns31 = s12\ns32 = s12\ns33 = s11\ns44 free\ns55 = s44\ns66 = s44\n",
        ),
    ];
    for (group, word, weights, count, lines) in rows {
        match answer(rt.alloc(), group, word, weights) {
            Some(Ok(text)) => assert!(rt;
                has_lines(text.as_slice(), count, lines),
                "{group} {word}"
            ),
            _ => assert!(rt; false, "{group} {word}"),
        }
    }
    Ok(())
}

#[test]
fn other_symbols_are_refused(rt: HostRuntime) -> Result<(), Fail> {
    for word in ["V3", "V", "1", "[V2]3", "[[V2]3]", "{V2}", "[V3]", "V[V2]V"] {
        let refused = matches!(
            answer(rt.alloc(), "1", word, Weights::Plain),
            Some(Err(VoigtFault::Shape))
        );
        assert!(rt; refused, "{word}");
    }
    Ok(())
}
