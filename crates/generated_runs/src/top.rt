//! A generated run.
ghost use Rattle.std.specs.Prelude.{◌≡◌, ◌<◌, ◌≤◌, ℕ, List, length, IfOk, IsErrOf};
ghost use Rattle.tensor_ports.specs.Causes.{Rose};
ghost use Rattle.generated_runs.specs.Runs.{AreMade, LeavesSummary};
ghost use Rattle.generated_runs.specs.Summary.{AreCounts};
ghost use Rattle.generated_runs.specs.declared.counts.LineOutcome as told;

use crate::counts::{Counts, LineOutcome};
use crate::draws::Draws;
use std::alloc::Global;
use tensor_ports::{NoMemory, Sink, write_all_of};

/// What answers lines.
pub trait Answers {
    /// What may become of a line of a number.
    ghost becomes: { ℕ → List ℕ → told.LineOutcome → Type 0 };

    /// Answers a line of a number, and tells what became of it.
    fn answer(&mut self, number: u64, line: &[u8]) -> Result<LineOutcome, NoMemory>
        requires some { 0 < length line.now }
        requires short { length line.now ≤ 1000 }
        ensures { IfOk result (λ outcome. becomes number line.now outcome) };
}

/// Why a generated run stops before its end.
#[derive(Clone, Copy, Debug, PartialEq, Eq, Drop)]
pub enum Stop {
    Memory,
    Write,
}

/// Makes the lines, has them answered, and counts what becomes of them.
fn count_lines<A: Answers>(
    alloc: Global,
    count: u64,
    seed: u64,
    answers: &mut A,
) -> Result<Counts, NoMemory>
    requires few { count ≤ 100000 }
    requires seeded { seed < 2147483647 }
    ensures { IfOk result (λ counts. (os : List told.LineOutcome) × AreMade A.becomes count seed os × AreCounts os counts) }
{
    let mut line = Vec::new(alloc);
    let mut draws = Draws::new(seed);
    let mut counts = Counts::new();
    for made in 0..count {
        draws.make_line(&mut line)?;
        counts.count(answers.answer(made + 1, &line)?);
    }
    Ok(counts)
}

/// Answers so many lines that are made from a seed, writes none of the answers, and writes the summary. It tells whether a
/// line was refused.
pub fn run_generated<A: Answers, O: Sink>(
    alloc: Global,
    count: u64,
    seed: u64,
    answers: &mut A,
    sink: &mut O,
) -> Result<bool, Stop>
    requires few { count ≤ 100000 }
    requires seeded { seed < 2147483647 }
    ensures leaves { LeavesSummary A.becomes count seed result (O.written sink.old) (O.written sink.new) }
    ensures write_cause { IsErrOf result Stop.Write → Rose (O.faults sink.old) (O.faults sink.new) }
    ensures calm { (IsErrOf result Stop.Write → ⊥) → O.faults sink.new ≡ O.faults sink.old }
    ensures memory { IsErrOf result Stop.Memory → sink.new ≡ sink.old }
{
    let Ok(counts) = count_lines(alloc, count, seed, answers) else {
        return Err(Stop::Memory);
    };
    let Ok(text) = counts.summary(alloc, count) else {
        return Err(Stop::Memory);
    };
    match write_all_of(sink, &text) {
        Ok(()) => Ok(counts.any_refused),
        Err(_) => Err(Stop::Write),
    }
}
