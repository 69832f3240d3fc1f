//! Inputs in format 2: comments and lists of tensors; and in both formats, marks before each factor.
use crate::runs::{answer, count_lines, expect_rows, lines_by_end};
use std::alloc::Global;
use std::str::from_utf8;
use std::test::Fail;
use tensor_cli::{Format, LineEnd, Outcome, answer_line};
use tensor_vectors::jahn_row;

/// Inputs with comments and lists.
static LISTS: [(&str, &str); 7] = [
    (
        "format 2\n# note\nform 2 V,eV",
        "form 2 V free 1 of 3\nT1 = 0\nT2 free\nT3 = 0\nform 2 eV free 1 of 3\nT1 = 0\nT2 free\nT3 = 0\n",
    ),
    ("format 2", ""),
    ("format 2\n", ""),
    ("format 2\n#\n\n# form 2 V\n#", ""),
    (
        "format 2\n\n#\r\nform 1 1\n# \u{e9}\nform 1 1",
        "form 1 1 free 1 of 1\nT free\nform 1 1 free 1 of 1\nT free\n",
    ),
    (
        "format 2\nform -1 1,e,1,e,1,e,1,e",
        "form -1 1 free 1 of 1\nT free\nform -1 e free 0 of 1\nT = 0\nform -1 1 free 1 of 1\nT free\nform -1 e free 0 of 1\nT = 0\nform -1 1 free 1 of 1\nT free\nform -1 e free 0 of 1\nT = 0\nform -1 1 free 1 of 1\nT free\nform -1 e free 0 of 1\nT = 0\n",
    ),
    (
        "format 2\ngroup 1\nsame 1 -1 eV",
        "group 1 order 1\nelement 1 1 0 0 0 1 0 0 0 1\nsame 1 -1 eV yes\n",
    ),
];

#[test]
fn lists(rt: HostRuntime) -> Result<(), Fail> {
    expect_rows(&rt, rt.alloc(), &LISTS, Outcome::Answered)
}

/// Inputs that aren't in format 2, and lines that it refuses.
static REFUSED: [(&str, &str); 18] = [
    ("form 2 V,eV", "error 1 9 syntax\n"),
    ("# note", "error 1 1 syntax\n"),
    ("\nformat 2", "error 2 5 syntax\n"),
    ("\nformat 2\n# note", "error 2 5 syntax\nerror 3 1 syntax\n"),
    ("format 2 \n# note", "error 1 5 syntax\nerror 2 1 syntax\n"),
    ("format 2\r\n# note", "error 1 5 syntax\nerror 2 1 syntax\n"),
    ("format 1\n# note", "error 1 5 syntax\nerror 2 1 syntax\n"),
    ("# note\nformat 2", "error 1 1 syntax\nerror 2 5 syntax\n"),
    ("format 2\nformat 2", "error 2 5 syntax\n"),
    ("format 2\n # note", "error 2 1 syntax\n"),
    ("format 2\nform 1 1 # note", "error 2 9 syntax\n"),
    ("format 2\nform 1 V,V7", "error 2 11 syntax\n"),
    ("format 2\nform 1 V,", "error 2 10 syntax\n"),
    ("format 2\nform 1 V,V,V,V,V,V,V,V,V", "error 2 23 syntax\n"),
    ("format 2\nsame 1 1 V,V", "error 2 11 syntax\n"),
    ("format 2\nform 1 V,V6V", "error 2 10 rank\n"),
    ("format 2\nform 1 V6V,V,V6V", "error 2 8 rank\n"),
    ("format 2\nform 3' V,V6V", "error 2 6 primes\n"),
];

#[test]
fn refused(rt: HostRuntime) -> Result<(), Fail> {
    expect_rows(&rt, rt.alloc(), &REFUSED, Outcome::SomeRefused)
}

/// What isn't zero in the tables of eight tensors.
const EIGHT: &str =
    "form 4/mmm V free 0 of 3\nform 4/mmm [V2] free 2 of 9\nT11 free\nT22 = T11\nT33 free\nform 4/mmm aeV free 0 of 3\nform 4/mmm aeV2 free 0 of 9\nform 4/mmm V[V2] free 0 of 27\nform 4/mmm {V2} free 0 of 9\nform 4/mmm [[V2]2] free 6 of 81\nT1111 free\nT1122 free\nT1133 free\nT1212 free\nT1221 = T1212\nT1313 free\nT1331 = T1313\nT2112 = T1212\nT2121 = T1212\nT2211 = T1122\nT2222 = T1111\nT2233 = T1133\nT2323 = T1313\nT2332 = T1313\nT3113 = T1313\nT3131 = T1313\nT3223 = T1313\nT3232 = T1313\nT3311 = T1133\nT3322 = T1133\nT3333 free\nform 4/mmm e[V2] free 0 of 9\n";

/// A line that asks for the tables of the eight kinds of tensor.
fn eight_line(alloc: Global) -> Result<String, Fail> {
    let mut line = String::from_str(alloc, "form 4/mmm ")?;
    for number in 0..8 {
        if number > 0 {
            line.push(',')?;
        }
        line.push_str(jahn_row(number).unwrap_or(""))?;
    }
    Ok(line)
}

#[test]
fn eight_tables(rt: HostRuntime) -> Result<(), Fail> {
    let alloc = rt.alloc();
    let line = eight_line(alloc)?;
    let line = line.as_bytes();
    let mut out = Vec::new(alloc);
    let end = answer_line(
        alloc,
        Format::Two,
        2,
        &line[..line.len().min(4001)],
        &mut out,
    );
    assert_eq!(rt; end, Ok(LineEnd::Answered));
    assert_eq!(rt; count_lines(&out), 158);
    let not_zero = lines_by_end(alloc, &out, " = 0\n", false)?;
    assert_eq!(rt; from_utf8(&not_zero)?, EIGHT);
    Ok(())
}

/// Marks before factors, and the first lines of the answers.
static MARKS: [(&str, &str); 13] = [
    ("form -1 VeV", "form -1 eVV free 0 of 9\n"),
    ("form 1 eVeV", "form 1 VV free 9 of 9\n"),
    ("form -1 eVeV", "form -1 VV free 9 of 9\n"),
    ("form -1 eVV", "form -1 eVV free 0 of 9\n"),
    ("form -1 eV2", "form -1 eV2 free 0 of 9\n"),
    ("form 1 aVaeV", "form 1 eVV free 9 of 9\n"),
    ("form 1 eaVV", "form 1 aeVV free 9 of 9\n"),
    ("form 1' aVV", "form 11' aVV free 0 of 9\n"),
    ("form 1' aVaV", "form 11' VV free 9 of 9\n"),
    ("form 1' aV2", "form 11' aV2 free 0 of 9\n"),
    ("form 1 a[V2]eV", "form 1 ae[V2]V free 18 of 27\n"),
    ("form 1 Ve", "error 1 10 syntax\n"),
    ("form 1 eeV", "error 1 9 syntax\n"),
];

#[test]
fn marks(rt: HostRuntime) -> Result<(), Fail> {
    let alloc = rt.alloc();
    for (line, front) in &MARKS {
        let out = answer(alloc, line)?;
        assert!(rt; out.starts_with(front.as_bytes()), "{line}");
    }
    Ok(())
}
