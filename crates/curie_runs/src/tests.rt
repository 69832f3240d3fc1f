//! Whole runs over a sink in memory.
use crate::{ToolEnd, run_curie};
use std::alloc::{AllocError, Global};
use std::process::Abort;
use std::test::Fail;
use tensor_ports::{MemSink, SureSink};

/// Owned words.
fn owned(alloc: Global, words: &[&str]) -> Result<Vec<String>, AllocError> {
    let mut all = Vec::new(alloc);
    for word in words {
        let mut text = String::new(alloc);
        text.push_str(word)?;
        all.push(text)?;
    }
    Ok(all)
}

/// Runs on words, and compares the front of what was written, and the status.
fn expect_front(
    rt: &impl Abort,
    alloc: Global,
    words: &[String],
    want: &[u8],
    status: u8,
) -> Result<(), Fail> {
    let mut sink = SureSink::new(alloc);
    let end = run_curie(alloc, words, &mut sink);
    assert_eq!(rt; end.status(), status);
    assert!(rt; sink.taken().starts_with(want));
    Ok(())
}

#[test]
fn rows(rt: HostRuntime) -> Result<(), Fail> {
    let rows: [(&[&str], &[u8], u8); 9] = [
        (
            &["inf", "V2"],
            b"curie inf V2 free 3 of 9\nT11 free\nT12 free\nT13 = 0\nT21 = -T12\nT22 = T11\nT23 = 0\nT31 = 0\nT32 = 0\nT33 free\n",
            0,
        ),
        (
            &["inf2", "V"],
            b"curie inf2 V free 0 of 3\nT1 = 0\nT2 = 0\nT3 = 0\n",
            0,
        ),
        (
            &["inf/mm", "[[V2]2]"],
            b"curie inf/mm [[V2]2] free 5 of 81\n",
            0,
        ),
        (&["infx", "V"], b"error 1 4 syntax\n", 1),
        (&["inf/", "V7"], b"error 1 5 syntax\n", 1),
        (&["inf", "V7"], b"error 2 2 syntax\n", 1),
        (&["infm", "V6V"], b"error 2 1 rank\n", 1),
        (&[], b"usage: curie_axis GROUP JAHN\n", 2),
        (&["inf", "V", "V"], b"usage: curie_axis GROUP JAHN\n", 2),
    ];
    for (words, want, status) in rows {
        let words = owned(rt.alloc(), words)?;
        expect_front(&rt, rt.alloc(), &words, want, status)?;
    }
    Ok(())
}

#[test]
fn long_words_and_faults(rt: HostRuntime) -> Result<(), Fail> {
    let alloc = rt.alloc();
    let mut long = String::new(alloc);
    for _ in 0..4001 {
        long.push('V')?;
    }
    let mut words = owned(alloc, &["inf"])?;
    words.push(long)?;
    expect_front(&rt, alloc, &words, b"error 2 4001 long\n", 1)?;
    let words = owned(alloc, &["infm", "V"])?;
    let fails = [10].to_vec(alloc)?;
    let mut sink = MemSink::new(alloc, 200, 3, fails, None)?;
    assert_eq!(rt; run_curie(alloc, &words, &mut sink), ToolEnd::WriteFault);
    assert_eq!(rt; sink.taken(), b"curie infm".as_slice());
    Ok(())
}
