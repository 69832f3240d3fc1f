//! Voigt tables, by their lines that aren't zero, and requests for them that are refused.
use crate::runs::{expect_not_zero, expect_rows};
use std::test::Fail;
use tensor_cli::Outcome;

/// Tables with their lines that aren't zero, and how many others there are.
static TABLES: [(&str, &str, usize); 6] = [
    (
        "voigt 6mm [[V2]2] c",
        "voigt 6mm [[V2]2] c free 5\nc11 free\nc12 free\nc13 free\nc21 = c12\nc22 = c11\nc23 = c13\nc31 = c13\nc32 = c13\nc33 free\nc44 free\nc55 = c44\nc66 = 1/2*c11-1/2*c12\n",
        24,
    ),
    (
        "voigt 6mm [[V2]2] s",
        "voigt 6mm [[V2]2] s free 5\ns11 free\ns12 free\ns13 free\ns21 = s12\ns22 = s11\ns23 = s13\ns31 = s13\ns32 = s13\ns33 free\ns44 free\ns55 = s44\ns66 = 2*s11-2*s12\n",
        24,
    ),
    (
        "voigt 32 V[V2] s",
        "voigt 32 V[V2] s free 2\ns11 free\ns12 = -s11\ns14 free\ns25 = -s14\ns26 = -2*s11\n",
        13,
    ),
    (
        "voigt 2@xy [V2] c",
        "voigt 2@xy [V2] c free 4\nc1 free\nc2 = c1\nc3 free\nc4 free\nc5 = -c4\nc6 free\n",
        0,
    ),
    (
        "voigt m-3m [V2]2 s",
        "voigt m-3m [V2]2 s free 3\ns11 free\ns12 free\ns13 = s12\ns21 = s12\ns22 = s11\ns23 = s12\ns31 = s12\ns32 = s12\ns33 = s11\ns44 free\ns55 = s44\ns66 = s44\n",
        24,
    ),
    (
        "voigt 1 Ve[V2] c",
        "voigt 1 eV[V2] c free 18\nc11 free\nc12 free\nc13 free\nc14 free\nc15 free\nc16 free\nc21 free\nc22 free\nc23 free\nc24 free\nc25 free\nc26 free\nc31 free\nc32 free\nc33 free\nc34 free\nc35 free\nc36 free\n",
        0,
    ),
];

#[test]
fn tables(rt: HostRuntime) -> Result<(), Fail> {
    for (line, want, zeros) in &TABLES {
        expect_not_zero(&rt, rt.alloc(), line, want, *zeros)?;
    }
    Ok(())
}

/// Requests that are refused, and where.
static REFUSED: [(&str, &str); 8] = [
    ("voigt 1 V3 c", "error 1 9 shape\n"),
    ("voigt 1 V c", "error 1 9 shape\n"),
    ("voigt -42m1' [[V2]3] s", "error 1 14 shape\n"),
    ("voigt 3' V3 c", "error 1 7 primes\n"),
    ("voigt 1 V6V c", "error 1 9 rank\n"),
    ("voigt 1 [V2] x", "error 1 14 syntax\n"),
    ("voigt 1 [V2]", "error 1 13 syntax\n"),
    ("format 2\nvoigt 1 [V2],V c", "error 2 13 syntax\n"),
];

#[test]
fn refused(rt: HostRuntime) -> Result<(), Fail> {
    expect_rows(&rt, rt.alloc(), &REFUSED, Outcome::SomeRefused)
}
