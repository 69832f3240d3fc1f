//! Words that are accepted, and words that aren't.
use crate::{Generate, read_words};
use std::alloc::Global;
use std::test::Fail;

/// The run that these words ask for.
fn asked(alloc: Global, words: &[&str]) -> Result<Option<Generate>, Fail> {
    let mut all = Vec::new(alloc);
    for word in words {
        all.push(String::from_str(alloc, word)?)?;
    }
    Ok(read_words(alloc, &all)?)
}

#[test]
fn words(rt: HostRuntime) -> Result<(), Fail> {
    let alloc = rt.alloc();
    let run = asked(alloc, &["--seed=2147483646", "--generate", "0000100000"])?;
    let most = Some(Generate {
        count: 100000,
        seed: 2147483646,
    });
    assert!(rt; run == most);
    assert!(rt; asked(alloc, &["--seed", "1"])?.is_none());
    assert!(rt; asked(alloc, &["--generate", "3", "--seed", "0"])?.is_none());
    assert!(rt; asked(alloc, &["--generate", "00000000003", "--seed", "1"])?.is_none());
    assert!(rt; asked(alloc, &["--generate", "3", "--seed", "1", "--help"])?.is_none());
    assert!(rt; asked(alloc, &["--frob"])?.is_none());
    Ok(())
}
