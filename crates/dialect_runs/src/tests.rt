//! Runs over a sink in memory.
use crate::{ToolEnd, run_dialect};
use std::alloc::Global;
use std::process::Abort;
use std::test::Fail;
use tensor_ports::MemSink;

/// Runs on words over a sink that fails at the given places, and compares what was written and the end.
fn expect_run(
    rt: &impl Abort,
    alloc: Global,
    words: &[&str],
    fails: &[u64],
    want: (&[u8], ToolEnd),
) -> Result<(), Fail> {
    let mut list = Vec::new(alloc);
    for word in words {
        list.push(String::from_str(alloc, word)?)?;
    }
    let mut sink = MemSink::new(alloc, 200, 7, fails.to_vec(alloc)?, None)?;
    let end = run_dialect(alloc, &list, &mut sink);
    assert_eq!(rt; end, want.1);
    assert_eq!(rt; sink.taken(), want.0);
    Ok(())
}

const USAGE: &[u8] = b"usage: symbol_dialect short|long|schoenflies SYMBOL\n";

#[test]
fn rows_are_written(rt: HostRuntime) -> Result<(), Fail> {
    let rows: [(&str, &str, &[u8], ToolEnd); 9] = [
        ("long", "m'mm", b"2/m'.2'/m.2'/m\n", ToolEnd::Answered),
        ("long", "m'-3'm'", b"4/m'.-3'.2/m'\n", ToolEnd::Answered),
        ("short", "Oh", b"m-3m\n", ToolEnd::Answered),
        ("schoenflies", "321", b"D3\n", ToolEnd::Answered),
        ("short", "S6", b"-3\n", ToolEnd::Answered),
        ("schoenflies", "m'", b"error 2 1 noname\n", ToolEnd::Refused),
        (
            "short",
            "2/m.2/m'.2/m",
            b"error 2 8 syntax\n",
            ToolEnd::Refused,
        ),
        ("long", "3'", b"error 2 1 primes\n", ToolEnd::Refused),
        ("tall", "m", USAGE, ToolEnd::Usage),
    ];
    for (to, symbol, text, end) in &rows {
        expect_run(&rt, rt.alloc(), &[*to, *symbol], &[], (*text, *end))?;
    }
    expect_run(&rt, rt.alloc(), &[], &[], (USAGE, ToolEnd::Usage))?;
    let fault = (b"m-3".as_slice(), ToolEnd::WriteFault);
    expect_run(&rt, rt.alloc(), &["short", "Oh"], &[3], fault)
}

#[test]
fn long_words_are_refused(rt: HostRuntime) -> Result<(), Fail> {
    let mut long = String::new(rt.alloc());
    for _ in 0..4001 {
        long.push('m')?;
    }
    let want = (b"error 2 4001 long\n".as_slice(), ToolEnd::Refused);
    expect_run(&rt, rt.alloc(), &["short", long.as_str()], &[], want)
}
