//! What is expected of runs and of lines.
use std::alloc::Global;
use std::process::Abort;
use std::str::from_utf8;
use std::test::Fail;
use tensor_cli::{Format, Outcome, answer_line, run};
use tensor_ports::{SureSink, SureSource};

/// Two lines.
pub const INPUT: &str = "form 1 1\nform 1 V\n";

/// The answers to the two lines: 28 bytes and 45.
pub const ANSWERS: &str =
    "form 1 1 free 1 of 1\nT free\nform 1 V free 3 of 3\nT1 free\nT2 free\nT3 free\n";

/// The answer to `form 1 1`.
pub const SCALAR: &str = "form 1 1 free 1 of 1\nT free\n";

/// The run over this input writes this text, and ends so.
pub fn expect_run(
    rt: &impl Abort,
    alloc: Global,
    input: &str,
    want: &str,
    end: Outcome,
) -> Result<(), Fail> {
    let mut source = SureSource::new(input.as_bytes().to_vec(alloc)?);
    let mut sink = SureSink::new(alloc);
    let words = Vec::new(alloc);
    let outcome = run(alloc, &words, &mut source, &mut sink);
    assert_eq!(rt; outcome, end, "{input}");
    assert_eq!(rt; from_utf8(sink.taken())?, want, "{input}");
    Ok(())
}

/// Each run writes the text beside its input, and ends so.
pub fn expect_rows(
    rt: &impl Abort,
    alloc: Global,
    rows: &[(&str, &str)],
    end: Outcome,
) -> Result<(), Fail> {
    for (input, want) in rows {
        expect_run(rt, alloc, input, want, end)?;
    }
    Ok(())
}

/// The answer to the first line of an input in format 1.
pub fn answer(alloc: Global, line: &str) -> Result<Vec<u8>, Fail> {
    let mut out = Vec::new(alloc);
    let line = line.as_bytes();
    let line = &line[..line.len().min(1001)];
    answer_line(alloc, Format::One, 1, line, &mut out)?;
    Ok(out)
}

/// Whether the answer to a line begins so.
pub fn begins(alloc: Global, line: &str, front: &str) -> Result<bool, Fail> {
    Ok(answer(alloc, line)?.starts_with(front.as_bytes()))
}

/// The lines of a text that end so, or those that don't.
pub fn lines_by_end(alloc: Global, text: &[u8], end: &str, ends: bool) -> Result<Vec<u8>, Fail> {
    let mut kept = Vec::new(alloc);
    for line in text.split_inclusive(|byte| *byte == b'\n') {
        if line.ends_with(end.as_bytes()) == ends {
            kept.extend_from_slice(line)?;
        }
    }
    Ok(kept)
}

/// The answer to a line has these lines, and so many others that end in ` = 0`.
pub fn expect_not_zero(
    rt: &impl Abort,
    alloc: Global,
    line: &str,
    want: &str,
    zeros: usize,
) -> Result<(), Fail> {
    let out = answer(alloc, line)?;
    let zero = lines_by_end(alloc, &out, " = 0\n", true)?;
    let other = lines_by_end(alloc, &out, " = 0\n", false)?;
    assert_eq!(rt; from_utf8(&other)?, want);
    assert_eq!(rt; count_lines(&zero), zeros, "{line}");
    Ok(())
}

/// How many lines a text has.
pub fn count_lines(text: &[u8]) -> usize {
    text.iter().filter(|byte| **byte == b'\n').count()
}
