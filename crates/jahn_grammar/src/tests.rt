//! Worked words.

ghost use Rattle.std.specs.Prelude.{◌≤◌, length};

use crate::{JahnFault, RankCount, read_jahn, scan_jahn, write_jahn};
use std::alloc::Global;
use std::test::Fail;

/// The rank, or 100 where it is above 6, or 1000 and the place of a fault.
fn scanned(word: &[u8]) -> usize
    requires { length word.now ≤ 4000 }
{
    match scan_jahn(word) {
        Ok(RankCount::Known(rank)) => rank as usize,
        Ok(RankCount::More) => 100,
        Err(fault) => fault.place.saturating_add(1000),
    }
}

/// Whether the word is read, and then written as the text.
fn is_written_as(alloc: Global, word: &[u8], text: &[u8]) -> bool
    requires { length word.now ≤ 4000 }
{
    let mut out = Vec::new(alloc);
    match read_jahn(alloc, word) {
        Ok(jahn) => write_jahn(&jahn, &mut out).is_ok() && out.as_slice() == text,
        Err(_) => false,
    }
}

#[test]
fn words_are_scanned(rt: HostRuntime) -> Result<(), Fail> {
    let rows = [
        ("1", 0),
        ("e", 0),
        ("e1", 0),
        ("ae1", 0),
        ("V", 1),
        ("[[V2]2]", 4),
        ("ea[{V2}2]", 4),
        ("[V3]V3", 6),
        ("V6V", 100),
        ("[[V2]3]V", 100),
        ("", 1000),
        ("V1", 1001),
        ("V7", 1001),
        ("V22", 1002),
        ("[V2", 1003),
        ("[V]", 1002),
        ("[V2}", 1003),
        ("1V", 1001),
        ("VeV", 2),
        ("aVaeV", 2),
        ("aeV2ea[V2]", 4),
        ("Ve", 1002),
        ("VeeV", 1002),
        ("V2a1", 1003),
        ("eeV", 1001),
        ("ee", 1001),
        ("eae", 1002),
    ];
    for (word, expected) in rows {
        let word = word.as_bytes();
        if word.len() <= 4000 {
            assert_eq!(rt; scanned(word), expected);
        }
    }
    let mut nested = [b'['; 501];
    assert_eq!(rt; scanned(&nested[..500]), 1500);
    nested[200] = b'V';
    assert_eq!(rt; scanned(&nested), 1201);
    Ok(())
}

#[test]
fn words_are_read_and_written(rt: HostRuntime) -> Result<(), Fail> {
    let alloc = rt.alloc();
    let rows = [
        ("1", "1"),
        ("a", "a"),
        ("e1", "e"),
        ("ea1", "ae"),
        ("ea[{V2}2]", "ae[{V2}2]"),
        ("V[V2]", "V[V2]"),
        ("e[V2]2V", "e[V2]2V"),
        ("VeV", "eVV"),
        ("eVeV", "VV"),
        ("aVaeV", "eVV"),
        ("eV2a[V2]", "aeV2[V2]"),
    ];
    for (word, text) in rows {
        let word = word.as_bytes();
        if word.len() <= 4000 {
            assert!(rt; is_written_as(alloc, word, text.as_bytes()));
        }
    }
    assert!(rt;
        matches!(
            read_jahn(alloc, b"[V]"),
            Err(JahnFault::Syntax { place: 2 })
        )
    );
    assert!(rt; matches!(read_jahn(alloc, b"V6V"), Err(JahnFault::Rank)));
    Ok(())
}

#[test]
fn parts_are_told(rt: HostRuntime) -> Result<(), Fail> {
    match read_jahn(rt.alloc(), b"a[V2]V3") {
        Ok(jahn) => {
            assert_eq!(rt; jahn.body.len(), 2);
            assert!(rt; jahn.magnetic && !jahn.axial && !jahn.body.is_empty());
            assert!(rt; jahn.rank() == 5);
        }
        Err(_) => assert!(rt; false),
    }
    Ok(())
}
