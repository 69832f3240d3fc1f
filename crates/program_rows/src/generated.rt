//! Generated runs, and words that ask for none.
use crate::runs::INPUT;
use std::alloc::Global;
use std::process::Abort;
use std::str::from_utf8;
use std::test::Fail;
use tensor_cli::{Outcome, run};
use tensor_ports::{MemSink, MemSource, SureSink};

/// The words of a command line, between which one space stands.
fn words_of(alloc: Global, line: &str) -> Result<Vec<String>, Fail> {
    let mut words = Vec::new(alloc);
    for word in line.split(' ') {
        words.push(String::from_str(alloc, word)?)?;
    }
    Ok(words)
}

/// The run with these words reads nothing, writes this text, and ends so.
fn expect(
    rt: &impl Abort,
    alloc: Global,
    line: &str,
    want: &str,
    end: Outcome,
) -> Result<(), Fail> {
    let words = words_of(alloc, line)?;
    let mut source = MemSource::new(INPUT.as_bytes().to_vec(alloc)?, 4, Vec::new(alloc));
    let mut sink = SureSink::new(alloc);
    assert_eq!(rt; run(alloc, &words, &mut source, &mut sink), end, "{line}");
    assert_eq!(rt; from_utf8(sink.taken())?, want, "{line}");
    assert_eq!(rt; source.remaining().len(), INPUT.len(), "{line}");
    Ok(())
}

/// The summary of no lines.
const NONE: &str =
    "lines 0\nform 0\ngroup 0\nvoigt 0\nstates 0\npairs 0\ndiffer 0\nsame 0\nlong 0\nsyntax 0\nprimes 0\nrank 0\nshape 0\nnotsub 0\ntoolarge 0\nfree 0\nend 0\n";

/// The lines are `form m-31' [V2]`, `same 21' 6'mm' V` and `group 2/m`.
const THREE: &str =
    "lines 3\nform 1\ngroup 1\nvoigt 0\nstates 0\npairs 0\ndiffer 0\nsame 1\nlong 0\nsyntax 0\nprimes 0\nrank 0\nshape 0\nnotsub 0\ntoolarge 0\nfree 1\nend 3\n";

/// The line is `group m'`.
const LAST: &str =
    "lines 1\nform 0\ngroup 1\nvoigt 0\nstates 0\npairs 0\ndiffer 0\nsame 0\nlong 0\nsyntax 0\nprimes 0\nrank 0\nshape 0\nnotsub 0\ntoolarge 0\nfree 0\nend 1\n";

/// Lines of every kind, some of them refused; as counted from the answers of another program.
const MANY: &str =
    "lines 300\nform 46\ngroup 33\nvoigt 21\nstates 4\npairs 1\ndiffer 4\nsame 45\nlong 0\nsyntax 0\nprimes 0\nrank 0\nshape 18\nnotsub 128\ntoolarge 0\nfree 149\nend 300\n";

#[test]
fn summaries(rt: HostRuntime) -> Result<(), Fail> {
    let rows = [
        ("--generate 3 --seed 1", THREE),
        ("--seed=1 --generate=0000000003", THREE),
        ("--generate 0 --seed 1", NONE),
        ("--generate 1 --seed 2147483646", LAST),
    ];
    for (line, want) in rows {
        expect(&rt, rt.alloc(), line, want, Outcome::Answered)?;
    }
    Ok(())
}

/// The same bytes at each run.
#[test]
fn refused_lines(rt: HostRuntime) -> Result<(), Fail> {
    for _ in 0..2 {
        expect(
            &rt,
            rt.alloc(),
            "--generate 300 --seed 7",
            MANY,
            Outcome::SomeRefused,
        )?;
    }
    Ok(())
}

/// Words that aren't accepted: nothing is read and nothing is written.
#[test]
fn other_words(rt: HostRuntime) -> Result<(), Fail> {
    let rows = [
        "",
        "x",
        "form 1 1",
        "--frob",
        "--help",
        "-h",
        "--generate",
        "--seed 1",
        "--generate 3",
        "--generate 3 --seed",
        "--generate 3 --seed 0",
        "--generate 3 --seed 2147483647",
        "--generate 100001 --seed 1",
        "--generate 00000000003 --seed 1",
        "--generate -3 --seed 1",
        "--generate 3x --seed 1",
        "--generate 3 --seed 1 x",
        "--generate 3 --seed 1 --help",
        "--generate 3 --generate 3 --seed 1",
    ];
    for line in rows {
        expect(&rt, rt.alloc(), line, "", Outcome::Usage)?;
    }
    Ok(())
}

/// A sink that fails at a place holds the bytes before it.
#[test]
fn failed_writes(rt: HostRuntime) -> Result<(), Fail> {
    let alloc = rt.alloc();
    let words = words_of(alloc, "--generate 0 --seed 1")?;
    for place in 0..NONE.len() {
        let mut source = MemSource::new(Vec::new(alloc), 4, Vec::new(alloc));
        let places = vec![in alloc; place as u64]?;
        let mut sink = MemSink::new(alloc, 200, 7, places, None)?;
        assert_eq!(rt;
            run(alloc, &words, &mut source, &mut sink),
            Outcome::WriteFault
        );
        assert!(rt; sink.taken() == &NONE.as_bytes()[..place]);
    }
    Ok(())
}
