//! Lines from a seed, and runs over outcomes that are made up.
use crate::{Answers, Draws, Kind, LineOutcome, Refusal, Stop, run_generated};
use std::test::Fail;
use tensor_ports::{MemSink, NoMemory, SureSink};

/// Answers three lines, and refuses the others.
#[derive(Drop)]
struct Three;

impl Answers for Three {
    ghost becomes = { λ _ _ _. Unit {0} };

    fn answer(&mut self, number: u64, _: &[u8]) -> Result<LineOutcome, NoMemory> {
        Ok(match number {
            1 => LineOutcome::Answered(Kind::Form, 1),
            2 => LineOutcome::Answered(Kind::Same, 0),
            3 => LineOutcome::Answered(Kind::Group, 0),
            _ => LineOutcome::Refused(Refusal::NotSub),
        })
    }
}

#[test]
fn lines_from_a_seed(rt: HostRuntime) -> Result<(), Fail> {
    let mut draws = Draws::new(1);
    let mut line = Vec::new(rt.alloc());
    for want in ["form m-31' [V2]", "same 21' 6'mm' V", "group 2/m"] {
        draws.make_line(&mut line)?;
        assert!(rt; line.as_slice() == want.as_bytes());
    }
    let mut last = Draws::new(2147483646);
    last.make_line(&mut line)?;
    assert!(rt; line.as_slice() == b"group m'".as_slice());
    Ok(())
}

const SUMMARY: &[u8] =
    b"lines 4\nform 1\ngroup 1\nvoigt 0\nstates 0\npairs 0\ndiffer 0\nsame 1\nlong 0\nsyntax 0\nprimes 0\nrank 0\nshape 0\nnotsub 1\ntoolarge 0\nfree 1\nend 4\n";

#[test]
fn summaries(rt: HostRuntime) -> Result<(), Fail> {
    let alloc = rt.alloc();
    let mut whole = SureSink::new(alloc);
    assert!(rt; run_generated(alloc, 4, 1, &mut Three, &mut whole) == Ok(true));
    assert!(rt; whole.taken() == SUMMARY);
    let mut part = MemSink::new(alloc, 200, 7, vec![in alloc; 10u64]?, None)?;
    assert!(rt; run_generated(alloc, 4, 1, &mut Three, &mut part) == Err(Stop::Write));
    assert!(rt; part.taken() == &SUMMARY[..10]);
    Ok(())
}
