//! At most one outcome of a line, and at most one summary of a generated run.
#![tactic(auto)]

ghost use Rattle.outcome_laws.specs.Laws.{OneOutcome, OneSummary};

/// A line has at most one outcome.
pub fn one_outcome()
    ensures { OneOutcome }
{}

/// A generated run has at most one summary.
pub fn one_summary()
    ensures { OneSummary }
{}
