//! Lines of any length, and how the answer to one line ends.
use crate::runs::{SCALAR, expect_run};
use std::alloc::Global;
use std::process::Abort;
use std::str::from_utf8;
use std::test::Fail;
use tensor_cli::{Format, LineEnd, Outcome, answer_line};

/// A front, a byte so many times, and an end.
fn repeated(
    alloc: Global,
    front: &str,
    letter: char,
    count: usize,
    end: &str,
) -> Result<String, Fail> {
    let mut text = String::from_str(alloc, front)?;
    for _ in 0..count {
        text.push(letter)?;
    }
    text.push_str(end)?;
    Ok(text)
}

/// What stands before a letter, the letter, how often it stands, and the answer, which one to the line `form 1 1` follows.
type Row = (&'static str, char, usize, &'static str);

/// Long lines in format 1.
static ONE: [Row; 12] = [
    ("", 'x', 1000, "error 1 1 syntax\n"),
    ("", 'x', 1001, "error 1 1001 long\n"),
    ("", 'x', 4000, "error 1 1001 long\n"),
    ("", 'x', 4001, "error 1 1001 long\n"),
    ("", 'x', 4002, "error 1 1001 long\n"),
    ("", 'x', 8002, "error 1 1001 long\n"),
    ("", 'x', 9000, "error 1 1001 long\n"),
    ("form 1 ", '[', 500, "error 1 508 syntax\n"),
    ("form 1 ", 'V', 900, "error 1 8 rank\n"),
    ("form 1 ", 'V', 993, "error 1 8 rank\n"),
    ("form 1 ", '[', 993, "error 1 1001 syntax\n"),
    ("form 1 ", 'V', 994, "error 1 1001 long\n"),
];

/// Long lines in format 2, each the second.
static TWO: [Row; 13] = [
    ("", 'x', 1001, "error 2 1 syntax\n"),
    ("", 'x', 4000, "error 2 1 syntax\n"),
    ("", 'x', 4001, "error 2 4001 long\n"),
    ("", 'x', 4002, "error 2 4001 long\n"),
    ("", 'x', 8003, "error 2 4001 long\n"),
    ("#", ' ', 3999, ""),
    ("#", ' ', 4000, "error 2 4001 long\n"),
    ("#", ' ', 9000, "error 2 4001 long\n"),
    ("form 1 ", 'V', 3993, "error 2 8 rank\n"),
    ("form 1 ", '[', 3993, "error 2 4001 syntax\n"),
    ("form 1 ", 'V', 3994, "error 2 4001 long\n"),
    ("form 1 V,", '{', 3991, "error 2 4001 syntax\n"),
    ("form 1 V,", ',', 3991, "error 2 10 syntax\n"),
];

/// The answers to lines of these rows, with a line before them and one after.
fn expect_long(rt: &impl Abort, alloc: Global, head: &str, rows: &[Row]) -> Result<(), Fail> {
    for (front, letter, count, answer) in rows {
        let front = format!(in alloc; "{head}{front}")?;
        let input = repeated(alloc, &front, *letter, *count, "\nform 1 1")?;
        let want = format!(in alloc; "{answer}{SCALAR}")?;
        let end = match answer.is_empty() {
            true => Outcome::Answered,
            false => Outcome::SomeRefused,
        };
        expect_run(rt, alloc, &input, &want, end)?;
    }
    Ok(())
}

#[test]
fn in_format_one(rt: HostRuntime) -> Result<(), Fail> {
    expect_long(&rt, rt.alloc(), "", &ONE)
}

#[test]
fn in_format_two(rt: HostRuntime) -> Result<(), Fail> {
    expect_long(&rt, rt.alloc(), "format 2\n", &TWO)
}

/// The end of a first line that is too long doesn't tell the format.
#[test]
fn heading_at_the_end(rt: HostRuntime) -> Result<(), Fail> {
    let alloc = rt.alloc();
    let input = repeated(alloc, "", 'x', 4001, "format 2\n# note")?;
    let want = "error 1 1001 long\nerror 2 1 syntax\n";
    expect_run(&rt, alloc, &input, want, Outcome::SomeRefused)
}

/// Lines of 1001 bytes and of 4001 in one input.
#[test]
fn longer_lines(rt: HostRuntime) -> Result<(), Fail> {
    let alloc = rt.alloc();
    let first = repeated(alloc, "format 2\n", 'x', 1001, "\n")?;
    let input = repeated(alloc, &first, 'x', 4001, "")?;
    let want = "error 2 1 syntax\nerror 3 4001 long\n";
    expect_run(&rt, alloc, &input, want, Outcome::SomeRefused)
}

#[test]
fn ends_of_lines(rt: HostRuntime) -> Result<(), Fail> {
    let rows = [
        (Format::One, 1, "", LineEnd::Empty, ""),
        (Format::One, 7, "x", LineEnd::Refused, "error 7 1 syntax\n"),
        (Format::One, 8, "form 1 1", LineEnd::Answered, SCALAR),
        (
            Format::One,
            9,
            "# note",
            LineEnd::Refused,
            "error 9 1 syntax\n",
        ),
        (Format::Two, 1, "format 2", LineEnd::Empty, ""),
        (
            Format::Two,
            2,
            "format 2",
            LineEnd::Refused,
            "error 2 5 syntax\n",
        ),
        (Format::Two, 3, "", LineEnd::Empty, ""),
        (Format::Two, 4, "# note", LineEnd::Empty, ""),
        (
            Format::Two,
            18446744073709551615,
            "x",
            LineEnd::Refused,
            "error 18446744073709551615 1 syntax\n",
        ),
    ];
    for (format, number, line, end, want) in rows {
        let mut out = Vec::new(rt.alloc());
        let line = line.as_bytes();
        let line = &line[..line.len().min(1001)];
        assert_eq!(rt;
            answer_line(rt.alloc(), format, number, line, &mut out),
            Ok(end)
        );
        assert_eq!(rt; from_utf8(&out)?, want);
    }
    Ok(())
}
