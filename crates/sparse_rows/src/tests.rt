//! Worked eliminations.
ghost use Rattle.std.specs.Prelude.{◌≡◌};

use super::*;
use std::alloc::Global;
use std::process::Abort;
use std::test::Fail;

fn at(unknown: usize, number: i64) -> WholeEntry
    ensures { result ≡ record { unknown = unknown; number = number } }
{
    WholeEntry { unknown, number }
}

fn expect_row(rt: &impl Abort, row: &KeptRow, pivot: usize, want: &[(usize, i128, i128)]) {
    assert_eq!(rt; row.pivot, pivot);
    assert_eq!(rt; row.entries.len(), want.len());
    for (entry, (unknown, num, den)) in row.entries.iter().zip(want) {
        assert_eq!(rt;
            (entry.unknown, entry.value.num(), entry.value.den()),
            (*unknown, *num, *den)
        );
    }
}

#[test]
fn solves_a_small_system(rt: HostRuntime) -> Result<(), Fail> {
    let alloc = rt.alloc();
    let first = row_of_whole(alloc, &[at(0, 2), at(1, 1), at(2, 1)])?;
    let second = row_of_whole(alloc, &[at(0, 0), at(1, 3), at(2, -1)])?;
    let third = row_of_whole(alloc, &[at(0, 2), at(1, 4)])?;
    let kept = eliminate(alloc, &[first, second, third])?;
    assert_eq!(rt; kept.len(), 2);
    expect_row(&rt, &kept[0], 2, &[(0, 3, 2), (2, 1, 1)]);
    expect_row(&rt, &kept[1], 1, &[(0, 1, 2), (1, 1, 1)]);
    let sums = pivot_sums(alloc, &kept)?;
    assert_eq!(rt; sums.len(), 2);
    for (sum, want) in sums.iter().zip(&[(2, -3, 2), (1, -1, 2)]) {
        let (pivot, num, den) = *want;
        assert_eq!(rt; (sum.pivot, sum.terms.len()), (pivot, 1));
        for term in &sum.terms {
            assert_eq!(rt;
                (term.unknown, term.value.num(), term.value.den()),
                (0, num, den)
            );
        }
    }
    Ok(())
}

#[test]
fn refuses_large_fractions(rt: HostRuntime) -> Result<(), Fail> {
    let alloc = rt.alloc();
    let most = 4611686018427387903;
    for (number, refused) in [(-1, true), (0, false)] {
        let first = row_of_whole(alloc, &[at(0, most), at(1, 1)])?;
        let second = row_of_whole(alloc, &[at(0, number), at(1, 1)])?;
        let is_refused = matches!(
            eliminate(alloc, &[first, second]),
            Err(EliminateFault::TooLarge)
        );
        assert_eq!(rt; is_refused, refused);
    }
    Ok(())
}
