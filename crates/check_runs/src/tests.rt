//! Runs over a sink in memory.
use crate::{ToolEnd, run_check};
use std::alloc::Global;
use std::process::Abort;
use std::test::Fail;
use tensor_ports::MemSink;

/// Runs on words over a sink that fails at the given places, and compares what was written and the end.
fn expect_run(
    rt: &impl Abort,
    alloc: Global,
    words: &[&str],
    fails: &[u64],
    want: (&str, ToolEnd),
) -> Result<(), Fail> {
    let mut list = Vec::new(alloc);
    for word in words {
        list.push(String::from_str(alloc, word)?)?;
    }
    let mut sink = MemSink::new(alloc, 200, 7, fails.to_vec(alloc)?, None)?;
    let end = run_check(alloc, &list, &mut sink);
    assert_eq!(rt; sink.taken(), want.0.as_bytes());
    assert_eq!(rt; end, want.1);
    Ok(())
}

const USAGE: &str = "usage: tensor_check GROUP JAHN [NAME=NUMBER ...]\n";

#[test]
fn rows_are_written(rt: HostRuntime) -> Result<(), Fail> {
    let rows: [(&[&str], &str); 6] = [
        (
            &["4mm", "V", "T3=1"],
            "check 4mm V yes\nstabiliser m-3m1' 4mm1' order 16\n",
        ),
        (
            &["2@z", "V", "T1=1"],
            "check 2@z V no element 2 T1\nstabiliser m-3m1' none order 16\n",
        ),
        (
            &["1", "[V2]", "T12=1"],
            "check 1 [V2] no symmetry T21\nstabiliser m-3m1' 2/m1'@z order 8\n",
        ),
        (
            &["3", "V", "T1=r3"],
            "check 3 V no element 2 T1\nstabiliser 6/mmm1' 2mm1' order 8\n",
        ),
        (
            &["1", "V", "T1=1/2-3/4*r3"],
            "check 1 V yes\nstabiliser m-3m1' none order 16\n",
        ),
        (
            &["m-3m", "V2", "T11=2", "T22=2", "T33=2"],
            "check m-3m V2 yes\nstabiliser m-3m1' m-3m1' order 96\n",
        ),
    ];
    for (words, text) in rows {
        expect_run(&rt, rt.alloc(), words, &[], (text, ToolEnd::Answered))?;
    }
    let refused: [(&[&str], &str); 9] = [
        (&["1", "V", "T1=1", "T1=1"], "error 4 1 twice\n"),
        (&["1", "V", "T4=1"], "error 3 2 syntax\n"),
        (&["1", "V", "T1=1/0"], "error 3 7 syntax\n"),
        (&["1", "V", "T11=1"], "error 3 3 syntax\n"),
        (&["3x", "Vx", "T11=1"], "error 1 2 syntax\n"),
        (&["3'", "Vx", "T11=1"], "error 2 2 syntax\n"),
        (&["3'", "V6V", "T11=1"], "error 1 1 primes\n"),
        (&["3", "V6V", "T11=1"], "error 2 1 rank\n"),
        (
            &["3", "V", "T1=999999999999999999", "T1=1", "Tx"],
            "error 5 2 syntax\n",
        ),
    ];
    for (words, text) in refused {
        expect_run(&rt, rt.alloc(), words, &[], (text, ToolEnd::Refused))?;
    }
    expect_run(&rt, rt.alloc(), &["m"], &[], (USAGE, ToolEnd::Usage))?;
    expect_run(
        &rt,
        rt.alloc(),
        &["m", "V"],
        &[3],
        ("che", ToolEnd::WriteFault),
    )
}
