//! Words, and the runs that they ask for.
use crate::run_asked;
use generated_runs::{Answers, Kind, LineOutcome};
use line_runs::Outcome;
use std::alloc::Global;
use std::test::Fail;
use tensor_ports::{NoMemory, SureSink};

/// Answers each line.
#[derive(Drop)]
struct Always;

impl Answers for Always {
    ghost becomes = { λ _ _ _. Unit {0} };

    fn answer(&mut self, _: u64, _: &[u8]) -> Result<LineOutcome, NoMemory> {
        Ok(LineOutcome::Answered(Kind::Form, 2))
    }
}

/// How the run of these words ends.
fn ended(alloc: Global, words: &[&str], sink: &mut SureSink) -> Result<Outcome, Fail> {
    let mut all = Vec::new(alloc);
    for word in words {
        all.push(String::from_str(alloc, word)?)?;
    }
    Ok(run_asked(alloc, &all, &mut Always, sink))
}

#[test]
fn runs_of_words(rt: HostRuntime) -> Result<(), Fail> {
    let alloc = rt.alloc();
    let mut sink = SureSink::new(alloc);
    assert!(rt; ended(alloc, &["--frob"], &mut sink)? == Outcome::Usage);
    assert!(rt; sink.taken() == b"".as_slice());
    let words = ["--generate", "3", "--seed", "1"];
    assert!(rt; ended(alloc, &words, &mut sink)? == Outcome::Answered);
    assert!(rt; sink.taken().ends_with(b"free 6\nend 3\n"));
    Ok(())
}
