//! Requests of each kind with their whole answers, and requests that are refused.
use crate::runs::{SCALAR, expect_rows};
use std::test::Fail;
use tensor_cli::Outcome;

/// Small component tables, and inputs without a request.
static FORMS: [(&str, &str); 17] = [
    ("", ""),
    ("\n", ""),
    (
        "form 1 V",
        "form 1 V free 3 of 3\nT1 free\nT2 free\nT3 free\n",
    ),
    (
        "form -1 V",
        "form -1 V free 0 of 3\nT1 = 0\nT2 = 0\nT3 = 0\n",
    ),
    (
        "form -1 eV",
        "form -1 eV free 3 of 3\nT1 free\nT2 free\nT3 free\n",
    ),
    ("form -1 e1", "form -1 e free 0 of 1\nT = 0\n"),
    ("form 1 1", SCALAR),
    (
        "form 2 V",
        "form 2 V free 1 of 3\nT1 = 0\nT2 free\nT3 = 0\n",
    ),
    (
        "form 2@z V",
        "form 2@z V free 1 of 3\nT1 = 0\nT2 = 0\nT3 free\n",
    ),
    (
        "form m eV",
        "form m eV free 1 of 3\nT1 = 0\nT2 free\nT3 = 0\n",
    ),
    (
        "form m'm2' eaV",
        "form m'm2' aeV free 1 of 3\nT1 = 0\nT2 free\nT3 = 0\n",
    ),
    (
        "form 1' aeV",
        "form 11' aeV free 0 of 3\nT1 = 0\nT2 = 0\nT3 = 0\n",
    ),
    (
        "form mm2 V2",
        "form mm2 V2 free 3 of 9\nT11 free\nT12 = 0\nT13 = 0\nT21 = 0\nT22 free\nT23 = 0\nT31 = 0\nT32 = 0\nT33 free\n",
    ),
    (
        "form 4/mmm [V2]",
        "form 4/mmm [V2] free 2 of 9\nT11 free\nT12 = 0\nT13 = 0\nT21 = 0\nT22 = T11\nT23 = 0\nT31 = 0\nT32 = 0\nT33 free\n",
    ),
    (
        "form 6 V2",
        "form 6 V2 free 3 of 9\nT11 free\nT12 free\nT13 = 0\nT21 = -T12\nT22 = T11\nT23 = 0\nT31 = 0\nT32 = 0\nT33 free\n",
    ),
    (
        "form m'-3'm' aeV2",
        "form m'-3'm' aeV2 free 1 of 9\nT11 free\nT12 = 0\nT13 = 0\nT21 = 0\nT22 = T11\nT23 = 0\nT31 = 0\nT32 = 0\nT33 = T11\n",
    ),
    (
        "form 1 {V2}",
        "form 1 {V2} free 3 of 9\nT11 = 0\nT12 free\nT13 free\nT21 = -T12\nT22 = 0\nT23 free\nT31 = -T13\nT32 = -T23\nT33 = 0\n",
    ),
];

#[test]
fn forms(rt: HostRuntime) -> Result<(), Fail> {
    expect_rows(&rt, rt.alloc(), &FORMS, Outcome::Answered)
}

/// Groups, domain states, pair classes, and whether two groups admit the same tensors.
static GROUPS: [(&str, &str); 12] = [
    (
        "group 1'",
        "group 11' order 2\nelement 1 1 0 0 0 1 0 0 0 1\nelement 2 1 0 0 0 1 0 0 0 1 primed\n",
    ),
    (
        "group 2'",
        "group 2' order 2\nelement 1 1 0 0 0 1 0 0 0 1\nelement 2 -1 0 0 0 1 0 0 0 -1 primed\n",
    ),
    (
        "group 3",
        "group 3 order 3\nelement 1 1 0 0 0 1 0 0 0 1\nelement 2 -1/2 1/2*r3 0 -1/2*r3 -1/2 0 0 0 1\nelement 3 -1/2 -1/2*r3 0 1/2*r3 -1/2 0 0 0 1\n",
    ),
    (
        "states m-3m 4mm",
        "states m-3m 4mm count 6\nstate 1 1 0 0 0 1 0 0 0 1\nstate 2 1 0 0 0 1 0 0 0 -1\nstate 3 1 0 0 0 0 1 0 1 0\nstate 4 1 0 0 0 0 -1 0 1 0\nstate 5 0 0 1 1 0 0 0 1 0\nstate 6 0 0 -1 1 0 0 0 1 0\n",
    ),
    (
        "states mmm mmm",
        "states mmm mmm count 1\nstate 1 1 0 0 0 1 0 0 0 1\n",
    ),
    (
        "pairs m-3m 4mm",
        "pairs m-3m 4mm states 6 classes 3\nclass 1 states 1 swappable yes group 4mm order 8 twin 4mm order 8\nclass 2 states 2 swappable yes group 4mm order 8 twin 4/mmm order 16\nclass 3 states 3 4 5 6 swappable yes group m@x order 2 twin m-3m order 48\n",
    ),
    (
        "pairs m-3m 3m@p",
        "pairs m-3m 3m@p states 8 classes 4\nclass 1 states 1 swappable yes group 3m@p order 6 twin 3m@p order 6\nclass 2 states 2 3 5 swappable yes group none order 2 twin m-3m order 48\nclass 3 states 4 6 7 swappable yes group none order 2 twin -43m order 24\nclass 4 states 8 swappable yes group 3m@p order 6 twin -3m@p order 12\n",
    ),
    (
        "pairs 4 1",
        "pairs 4 1 states 4 classes 4\nclass 1 states 1 swappable yes group 1 order 1 twin 1 order 1\nclass 2 states 2 swappable no group 1 order 1 twin 4 order 4\nclass 3 states 3 swappable no group 1 order 1 twin 4 order 4\nclass 4 states 4 swappable yes group 1 order 1 twin 2@z order 2\n",
    ),
    (
        "pairs 4/mmm mmm",
        "pairs 4/mmm mmm states 2 classes 2\nclass 1 states 1 swappable yes group mmm order 8 twin mmm order 8\nclass 2 states 2 swappable yes group mmm order 8 twin 4/mmm order 16\n",
    ),
    ("same 2@z 4 V", "same 2@z 4 V yes\n"),
    ("same 6mm 4mm [V2]", "same 6mm 4mm [V2] yes\n"),
    ("same 6mm 4mm [[V2]2]", "same 6mm 4mm [[V2]2] no\n"),
];

#[test]
fn groups(rt: HostRuntime) -> Result<(), Fail> {
    expect_rows(&rt, rt.alloc(), &GROUPS, Outcome::Answered)
}

/// Requests that are refused, and where.
static REFUSED: [(&str, &str); 28] = [
    ("form 3' V", "error 1 6 primes\n"),
    ("form m'-3 V", "error 1 6 primes\n"),
    ("form 2'22 V", "error 1 6 primes\n"),
    ("group 3'", "error 1 7 primes\n"),
    ("group m'-3", "error 1 7 primes\n"),
    ("states 3' 1", "error 1 8 primes\n"),
    ("pairs 1 3'", "error 1 9 primes\n"),
    ("same 2@z 3' V6V", "error 1 10 primes\n"),
    ("form 4/mm V", "error 1 10 syntax\n"),
    ("form 1 [V2", "error 1 11 syntax\n"),
    ("form 1 V7", "error 1 9 syntax\n"),
    ("form 2'1' V", "error 1 8 syntax\n"),
    ("form 1 ", "error 1 8 syntax\n"),
    ("form", "error 1 5 syntax\n"),
    ("x", "error 1 1 syntax\n"),
    ("differ 1 1 V7", "error 1 13 syntax\n"),
    ("form 1 V6V", "error 1 8 rank\n"),
    ("same 1 1 V6V", "error 1 10 rank\n"),
    ("states 4/mmm 6", "error 1 14 notsub 2\n"),
    ("pairs 4/mmm 6", "error 1 13 notsub 2\n"),
    ("\n\nx", "error 3 1 syntax\n"),
    ("x\n\nform\n", "error 1 1 syntax\nerror 3 5 syntax\n"),
    (
        "form 1 V7\nform 1 1",
        "error 1 9 syntax\nform 1 1 free 1 of 1\nT free\n",
    ),
    (
        "form 1 1\nform 1 V7\n",
        "form 1 1 free 1 of 1\nT free\nerror 2 9 syntax\n",
    ),
    ("form 1 1\r\n", "error 1 9 syntax\n"),
    ("form  1 1", "error 1 6 syntax\n"),
    (" form 1 1", "error 1 1 syntax\n"),
    ("FORM 1 1", "error 1 1 syntax\n"),
];

#[test]
fn refused(rt: HostRuntime) -> Result<(), Fail> {
    expect_rows(&rt, rt.alloc(), &REFUSED, Outcome::SomeRefused)
}
