//! The bytes of answers, and a group that isn't a subgroup.
ghost use Rattle.std.specs.Prelude.{IfSome};
ghost use Rattle.tensor_defs.specs.Group.{InGroup};
ghost use Rattle.tensor_defs.specs.Lists.{IsListing};
ghost use Rattle.tensor_defs.specs.OperationOrder.{comes_before};

use super::*;
use group_symbol::{SymbolTree, read_group};
use magnetic_groups::{Group, build_group};
use std::alloc::Global;
use std::test::Fail;

const STATES: &str =
    "states m-3m 4mm count 6\nstate 1 1 0 0 0 1 0 0 0 1\nstate 2 1 0 0 0 1 0 0 0 -1\nstate 3 1 0 0 0 0 1 0 1 0\nstate 4 1 0 0 0 0 -1 0 1 0\nstate 5 0 0 1 1 0 0 0 1 0\nstate 6 0 0 -1 1 0 0 0 1 0\n";

const PAIRS: &str =
    "pairs m-3m 4mm states 6 classes 3\nclass 1 states 1 swappable yes group 4mm order 8 twin 4mm order 8\nclass 2 states 2 swappable yes group 4mm order 8 twin 4/mmm order 16\nclass 3 states 3 4 5 6 swappable yes group m@x order 2 twin m-3m order 48\n";

const FOURFOLD: &str =
    "pairs 4 1 states 4 classes 4\nclass 1 states 1 swappable yes group 1 order 1 twin 1 order 1\nclass 2 states 2 swappable no group 1 order 1 twin 4 order 4\nclass 3 states 3 swappable no group 1 order 1 twin 4 order 4\nclass 4 states 4 swappable yes group 1 order 1 twin 2@z order 2\n";

/// A symbol with its group.
#[derive(Drop)]
struct Symbol {
    tree: SymbolTree,
    group: Group,
}

fn read(alloc: Global, text: &str) -> Option<Symbol>
    ensures { IfSome result (λ r. IsListing comes_before (InGroup r.tree) r.group) }
{
    let tree = read_group(text.as_bytes()).ok()?;
    match build_group(alloc, &tree) {
        Ok(group) => Some(Symbol { tree, group }),
        Err(_) => None,
    }
}

/// The answer for two symbols.
fn answer(
    alloc: Global,
    pairs: bool,
    g: &str,
    f: &str,
    out: &mut Vec<u8>,
) -> Option<Result<(), StateFault>> {
    let Symbol {
        tree: g,
        group: whole,
    } = read(alloc, g)?;
    let Symbol {
        tree: f,
        group: sub,
    } = read(alloc, f)?;
    if pairs {
        return Some(answer_pairs(alloc, &g, &f, whole, sub, out));
    }
    Some(answer_states(alloc, &g, &f, whole, sub, out))
}

#[test]
fn bytes_of_answers(rt: HostRuntime) -> Result<(), Fail> {
    let rows = [
        (false, "m-3m", "4mm", STATES),
        (true, "m-3m", "4mm", PAIRS),
        (true, "4", "1", FOURFOLD),
    ];
    for (pairs, g, f, text) in rows {
        let mut out = Vec::new(rt.alloc());
        assert_eq!(rt; answer(rt.alloc(), pairs, g, f, &mut out), Some(Ok(())));
        assert!(rt; out.as_slice() == text.as_bytes(), "{g} {f}");
    }
    Ok(())
}

#[test]
fn not_a_subgroup(rt: HostRuntime) -> Result<(), Fail> {
    for pairs in [false, true] {
        let mut out = b"before".to_vec(rt.alloc())?;
        let told = answer(rt.alloc(), pairs, "4/mmm", "6", &mut out);
        assert_eq!(rt; told, Some(Err(StateFault::NotSubgroup { first: 2 })));
        assert_eq!(rt; out.as_slice(), b"before".as_slice());
    }
    Ok(())
}
