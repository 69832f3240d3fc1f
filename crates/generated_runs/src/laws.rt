//! Laws of the definitions.
ghost use Rattle.generated_runs.specs.Laws.{AnsweredLines, RefusedOutcomes};

/// Some outcome is a refusal exactly where some line is refused.
pub fn refused_outcomes()
    ensures { RefusedOutcomes }
{}

/// What answers a line of a kind, with so many free components, is the answer of the line.
pub fn answered_lines()
    ensures { AnsweredLines }
{}
