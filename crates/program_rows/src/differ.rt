//! How tensors of domain states differ, and requests for it that are refused.
use crate::runs::expect_rows;
use std::test::Fail;
use tensor_cli::Outcome;

/// Whole answers.
static STATES: [(&str, &str); 5] = [
    (
        "differ 6/mmm mmm [V2]",
        "differ 6/mmm mmm [V2] states 3 free T11 T22 T33\nstate 2 differs 4 of 9\nT11 = 1/4*T11+3/4*T22\nT12 = 1/4*r3*T11-1/4*r3*T22\nT21 = 1/4*r3*T11-1/4*r3*T22\nT22 = 3/4*T11+1/4*T22\nstate 3 differs 4 of 9\nT11 = 1/4*T11+3/4*T22\nT12 = -1/4*r3*T11+1/4*r3*T22\nT21 = -1/4*r3*T11+1/4*r3*T22\nT22 = 3/4*T11+1/4*T22\n",
    ),
    (
        "differ m-3m 4mm V",
        "differ m-3m 4mm V states 6 free T3\nstate 2 differs 1 of 3\nT3 = -T3\nstate 3 differs 2 of 3\nT2 = T3\nT3 = 0\nstate 4 differs 2 of 3\nT2 = -T3\nT3 = 0\nstate 5 differs 2 of 3\nT1 = T3\nT3 = 0\nstate 6 differs 2 of 3\nT1 = -T3\nT3 = 0\n",
    ),
    (
        "differ 11' 1 aeV",
        "differ 11' 1 aeV states 2 free T1 T2 T3\nstate 2 differs 3 of 3\nT1 = -T1\nT2 = -T2\nT3 = -T3\n",
    ),
    ("differ 1 1 {V4}", "differ 1 1 {V4} states 1 free none\n"),
    (
        "format 2\ndiffer 11' 1 aeV,V",
        "differ 11' 1 aeV states 2 free T1 T2 T3\nstate 2 differs 3 of 3\nT1 = -T1\nT2 = -T2\nT3 = -T3\ndiffer 11' 1 V states 2 free T1 T2 T3\nstate 2 differs 0 of 3\n",
    ),
];

#[test]
fn states(rt: HostRuntime) -> Result<(), Fail> {
    expect_rows(&rt, rt.alloc(), &STATES, Outcome::Answered)
}

/// Requests that are refused, and where.
static REFUSED: [(&str, &str); 7] = [
    ("differ 1 3' V", "error 1 10 primes\n"),
    ("differ 3' 1 V", "error 1 8 primes\n"),
    ("differ 1 1 V6V", "error 1 12 rank\n"),
    ("differ 4/mmm 6 V", "error 1 14 notsub 2\n"),
    ("differ 1 1 V,V", "error 1 13 syntax\n"),
    ("format 2\ndiffer 1 1 V,V6V", "error 2 14 rank\n"),
    (
        "format 2\ndiffer 1 1 V,V,V,V,V,V,V,V,V",
        "error 2 27 syntax\n",
    ),
];

#[test]
fn refused(rt: HostRuntime) -> Result<(), Fail> {
    expect_rows(&rt, rt.alloc(), &REFUSED, Outcome::SomeRefused)
}
