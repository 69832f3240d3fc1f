//! Worked tables.
use crate::{VoigtFault, VoigtTable, Weights, voigt};
use group_symbol::read_group;
use jahn_grammar::read_jahn;
use magnetic_groups::build_group;
use std::alloc::Global;
use std::test::Fail;

/// The Voigt table of a group and a symbol, or why there is none.
fn table_of(
    alloc: Global,
    group: &str,
    word: &str,
    weights: Weights,
) -> Option<Result<VoigtTable, VoigtFault>> {
    if word.len() > 4000 {
        return None;
    }
    let tree = read_group(group.as_bytes()).ok()?;
    let group = build_group(alloc, &tree).ok()?;
    if !group.is_framed() {
        return None;
    }
    let jahn = read_jahn(alloc, word.as_bytes()).ok()?;
    Some(voigt(alloc, &group, &jahn, weights))
}

/// Whether a table has as many free entries and these lines, behind what stood there.
fn has_lines(alloc: Global, table: &VoigtTable, free: usize, lines: &str) -> Option<bool> {
    let mut text = Vec::new(alloc);
    text.push(b'x').ok()?;
    table.write_table(&mut text).ok()?;
    Some(table.free_count() == free && text.as_slice() == lines.as_bytes())
}

#[test]
fn tables_have_lines(rt: HostRuntime) -> Result<(), Fail> {
    let rows = [(
        "2@xy",
        "[V2]",
        Weights::Plain,
        4,
        "xc1 free\nc2 = c1\nc3 free\nc4 free\nc5 = -c4\nc6 free\n",
    )];
    for (group, word, weights, free, lines) in rows {
        match table_of(rt.alloc(), group, word, weights) {
            Some(Ok(table)) => assert_eq!(rt;
                has_lines(rt.alloc(), &table, free, lines),
                Some(true),
                "{group} {word}"
            ),
            _ => assert!(rt; false, "{group} {word}"),
        }
    }
    Ok(())
}

#[test]
fn other_symbols_are_refused(rt: HostRuntime) -> Result<(), Fail> {
    for word in ["V3", "1", "[V2]3"] {
        let refused = matches!(
            table_of(rt.alloc(), "1", word, Weights::Plain),
            Some(Err(VoigtFault::Shape))
        );
        assert!(rt; refused, "{word}");
    }
    Ok(())
}
