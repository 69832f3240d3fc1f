//! Worked words of group symbols.
use super::*;
use std::test::Fail;

/// The number of the parent that a word is read with, or the place where it goes wrong.
fn reading(word: &[u8]) -> Result<u8, usize> {
    match read_group(word) {
        Ok(tree) => Ok(tree.parent().number()),
        Err(fault) => Err(fault.place),
    }
}

/// Words, and the parents that they are read with, or the places where they go wrong.
static WORDS: [(&[u8], Result<u8, usize>); 29] = [
    (b"3m1'", Ok(24)),
    (b"3m11'", Ok(25)),
    (b"1'", Ok(1)),
    (b"11'", Ok(1)),
    (b"321'", Ok(21)),
    (b"32", Ok(21)),
    (b"321", Ok(22)),
    (b"3211'", Ok(22)),
    (b"m'-3'", Ok(39)),
    (b"m'-3'm'", Ok(42)),
    (b"3'", Ok(19)),
    (b"3'1m'", Ok(26)),
    (b"4'/m'm'm'", Ok(18)),
    (b"2@y", Ok(3)),
    (b"21'@y", Ok(3)),
    (b"2/m1'@xy", Ok(5)),
    (b"m2m@d", Ok(8)),
    (b"-3'm@p", Ok(27)),
    (b"2'1'", Err(2)),
    (b"4/mm", Err(4)),
    (b"2@xyz", Err(4)),
    (b"1'x", Err(2)),
    (b"1'@y", Err(2)),
    (b"", Err(0)),
    (b"m-3m@d", Err(4)),
    (b"3'm1'", Err(4)),
    (b"21", Err(2)),
    (b"2@d", Err(2)),
    (b"x", Err(0)),
];

#[test]
fn words_are_read(rt: HostRuntime) -> Result<(), Fail> {
    for (word, wanted) in &WORDS {
        assert_eq!(rt; reading(word), *wanted);
    }
    Ok(())
}

/// The text that is written for what a word spells.
fn rewritten(word: &[u8], out: &mut Vec<u8>) -> Result<(), NoMemory> {
    if let Ok(tree) = read_group(word) {
        write_group(&tree, out)?;
    }
    Ok(())
}

/// Words, and the texts that are written for what they spell.
static TEXTS: [(&[u8], &[u8]); 8] = [
    (b"1'", b"11'"),
    (b"2@y", b"2"),
    (b"21'@y", b"21'"),
    (b"3m1'", b"3m1'"),
    (b"4'/m'm'm'", b"4'/m'm'm'"),
    (b"2/m1'@xy", b"2/m1'@xy"),
    (b"m'm'2@d", b"m'm'2@d"),
    (b"-3'm@p", b"-3'm@p"),
];

#[test]
fn texts_are_written(rt: HostRuntime) -> Result<(), Fail> {
    for (word, text) in &TEXTS {
        let mut out = Vec::new(rt.alloc());
        rewritten(word, &mut out)?;
        assert_eq!(rt; out.as_slice(), *text);
    }
    Ok(())
}

#[test]
fn symbols_are_made(rt: HostRuntime) -> Result<(), Fail> {
    let parent = Parent::from_number(27).ok_or("-3m")?;
    assert_eq!(rt; parent.operators(), 2);
    assert!(rt; SymbolTree::new(parent, 4, false, Setting::P).is_none());
    assert!(rt; SymbolTree::new(parent, 1, true, Setting::P).is_none());
    assert!(rt; SymbolTree::new(parent, 1, false, Setting::D).is_none());
    assert!(rt; Parent::from_number(0).is_none());
    assert!(rt; Parent::from_number(43).is_none());
    let tree = SymbolTree::new(parent, 2, false, Setting::P).ok_or("-3m'@p")?;
    assert_eq!(rt; tree.primes(), 2);
    assert_eq!(rt; tree.is_grey(), false);
    assert_eq!(rt; tree.setting(), Setting::P);
    let generators = generators_of(&tree);
    assert_eq!(rt; generators.len(), 2);
    assert_eq!(rt; generators.at(0).primed(), false);
    assert_eq!(rt; generators.at(0).det(), -1);
    assert_eq!(rt; generators.at(1).primed(), true);
    assert_eq!(rt; generators.is_empty(), false);
    Ok(())
}
