//! Rows, and each accepted symbol written and read back.
ghost use Rattle.tensor_defs.specs.Group.{IsAccepted};

use super::*;
use group_symbol::{Parent, Setting, write_group};
use std::alloc::Global;
use std::test::Fail;

/// The text in a dialect of what a word names; else `noname`, `primes` or the place where the word goes wrong.
fn rewritten(alloc: Global, to: Dialect, word: &[u8]) -> Result<Vec<u8>, Fail> {
    let mut out = Vec::new(alloc);
    match read_any(alloc, word) {
        Ok(tree) => {
            if !write_dialect(alloc, &tree, to, &mut out)? {
                out.extend_from_slice(b"noname")?;
            }
        }
        Err(DialectFault::Syntax { place }) => out.push((place % 10) as u8 + b'0')?,
        Err(DialectFault::Primes) => out.extend_from_slice(b"primes")?,
        Err(DialectFault::NoMemory) => return Err(Fail::from("memory")),
    }
    Ok(out)
}

/// Words, and what is written for them.
static ROWS: [(Dialect, &[u8], &[u8]); 24] = [
    (Dialect::Long, b"m'mm", b"2/m'.2'/m.2'/m"),
    (Dialect::Long, b"m'-3'm'", b"4/m'.-3'.2/m'"),
    (Dialect::Short, b"Oh", b"m-3m"),
    (Dialect::Schoenflies, b"321", b"D3"),
    (Dialect::Short, b"S6", b"-3"),
    (Dialect::Schoenflies, b"m'", b"noname"),
    (Dialect::Schoenflies, b"m1'", b"noname"),
    (Dialect::Short, b"2/m.2/m'.2/m", b"7"),
    (Dialect::Long, b"3'", b"primes"),
    (Dialect::Long, b"mmm1'@d", b"2/m.2/m.2/m1'@d"),
    (Dialect::Short, b"2/m'.2'/m.2'/m@d", b"m'mm@d"),
    (Dialect::Long, b"4'/m'mm'", b"4'/m'.2'/m.2/m'"),
    (Dialect::Long, b"-3'm@p", b"-3'.2'/m@p"),
    (Dialect::Long, b"-3'm1", b"-3'.2'/m.1"),
    (Dialect::Long, b"-31m'", b"-3.1.2'/m'"),
    (Dialect::Long, b"6'/mmm'", b"6'/m.2'/m.2/m'"),
    (Dialect::Long, b"m'-3'", b"2/m'.-3'"),
    (Dialect::Long, b"m-3m'", b"4'/m.-3.2'/m'"),
    (Dialect::Long, b"C2v", b"mm2"),
    (Dialect::Schoenflies, b"2/m.2/m.2/m@d", b"D2h"),
    (Dialect::Short, b"", b"0"),
    (Dialect::Short, b"D3x", b"2"),
    (Dialect::Short, b"-3.2/m.", b"7"),
    (Dialect::Short, b"4/m.-3.2/m1'@d", b"2"),
];

#[test]
fn rows_are_answered(rt: HostRuntime) -> Result<(), Fail> {
    for (to, word, text) in &ROWS {
        let out = rewritten(rt.alloc(), *to, word)?;
        assert_eq!(rt; out.as_slice(), *text);
    }
    Ok(())
}

/// Whether what is written for an accepted symbol is read as the symbol again; for a name, as that of a parent that
/// isn't later. A symbol without a name has primes or is grey.
fn reads_back(alloc: Global, tree: &SymbolTree, to: Dialect) -> Result<bool, Fail>
    requires { IsAccepted tree.now }
{
    let mut text = Vec::new(alloc);
    if !write_dialect(alloc, tree, to, &mut text)? {
        return Ok(tree.is_grey() || tree.primes() != 0);
    }
    match read_any(alloc, text.as_slice()) {
        Ok(back) if to == Dialect::Schoenflies => {
            Ok(back.parent().number() <= tree.parent().number())
        }
        Ok(back) => Ok(back == *tree),
        Err(_) => Ok(false),
    }
}

/// How many of the symbols of a parent are accepted, where each is read back in each dialect.
fn count_read_back(alloc: Global, parent: Parent, setting: Setting) -> Result<usize, Fail> {
    let mut count = 0usize;
    for pattern in 0..17u8 {
        let Some(tree) = SymbolTree::new(parent, pattern % 16, pattern == 16, setting) else {
            continue;
        };
        let mut short = Vec::new(alloc);
        write_group(&tree, &mut short)?;
        if let Ok(read) = read_any(alloc, short.as_slice()) {
            for to in [Dialect::Short, Dialect::Long, Dialect::Schoenflies] {
                if !reads_back(alloc, &read, to)? {
                    return Err(Fail::from("another symbol"));
                }
            }
            count = count.saturating_add(1);
        }
    }
    Ok(count)
}

#[test]
fn symbols_are_read_back(rt: HostRuntime) -> Result<(), Fail> {
    let settings = [
        Setting::Default,
        Setting::X,
        Setting::Z,
        Setting::XY,
        Setting::D,
        Setting::P,
    ];
    let mut count = 0usize;
    for number in 1..43u8 {
        let parent = Parent::from_number(number).ok_or("a parent")?;
        for setting in &settings {
            count = count.saturating_add(count_read_back(rt.alloc(), parent, *setting)?);
        }
    }
    assert_eq!(rt; count, 257);
    Ok(())
}
