//! Whole runs over a sink in memory.
use crate::{ToolEnd, run_species};
use std::alloc::Global;
use std::process::Abort;
use std::test::Fail;
use tensor_ports::MemSink;

/// Runs on words over a sink that fails at the given places, and compares what was written and the end.
fn expect_run(
    rt: &impl Abort,
    alloc: Global,
    words: &[&str],
    fails: &[u64],
    want: (&str, ToolEnd),
) -> Result<(), Fail> {
    let mut list = Vec::new(alloc);
    for word in words {
        list.push(String::from_str(alloc, word)?)?;
    }
    let mut sink = MemSink::new(alloc, 200, 7, fails.to_vec(alloc)?, None)?;
    let end = run_species(alloc, &list, &mut sink);
    assert_eq!(rt; end, want.1);
    assert_eq!(rt; sink.taken(), want.0.as_bytes());
    Ok(())
}

const USAGE: &str = "usage: ferroic_species GROUP SUBGROUP\n";

#[test]
fn answers_are_written(rt: HostRuntime) -> Result<(), Fail> {
    let rows = [
        (
            ["m-3m", "4mm"],
            "species m-3m 4mm states 6\nelectric full 6\nelastic partial 3\nmagnetic non 1\n",
        ),
        (
            ["11'", "1"],
            "species 11' 1 states 2\nelectric non 1\nelastic non 1\nmagnetic full 2\n",
        ),
        (
            ["6/mmm", "mmm"],
            "species 6/mmm mmm states 3\nelectric non 1\nelastic full 3\nmagnetic non 1\n",
        ),
        (
            ["mmm", "mmm"],
            "species mmm mmm states 1\nelectric non 1\nelastic non 1\nmagnetic non 1\n",
        ),
    ];
    for (words, text) in &rows {
        expect_run(&rt, rt.alloc(), words, &[], (*text, ToolEnd::Answered))?;
    }
    Ok(())
}

#[test]
fn refusals_and_faults(rt: HostRuntime) -> Result<(), Fail> {
    let rows = [
        (["4/mmm", "6"], "error 2 1 notsub 2\n"),
        (["3'", "mx"], "error 2 2 syntax\n"),
        (["m-3x", "mx"], "error 1 4 syntax\n"),
        (["3'", "3'"], "error 1 1 primes\n"),
        (["m", "3'"], "error 2 1 primes\n"),
    ];
    for (words, text) in &rows {
        expect_run(&rt, rt.alloc(), words, &[], (*text, ToolEnd::Refused))?;
    }
    expect_run(&rt, rt.alloc(), &[], &[], (USAGE, ToolEnd::Usage))?;
    expect_run(&rt, rt.alloc(), &["m"], &[], (USAGE, ToolEnd::Usage))?;
    let fault = ("spe", ToolEnd::WriteFault);
    expect_run(&rt, rt.alloc(), &["mmm", "mmm"], &[3], fault)
}

#[test]
fn long_words_are_refused(rt: HostRuntime) -> Result<(), Fail> {
    let mut long = String::new(rt.alloc());
    for _ in 0..4001 {
        long.push('m')?;
    }
    let want = ("error 2 4001 long\n", ToolEnd::Refused);
    expect_run(&rt, rt.alloc(), &["x", long.as_str()], &[], want)
}
