//! The symbols of a request: groups that are accepted, and tensors of a rank up to 6.
ghost use Rattle.std.specs.Prelude.{◌≡◌, ◌<◌, ◌≤◌, ◌∷◌, [], IfErr, IfOk, MatchBool, length};
ghost use Rattle.tensor_defs.specs.Frames.{IsFramed};
ghost use Rattle.tensor_defs.specs.Group.{InGroup, IsAccepted};
ghost use Rattle.tensor_defs.specs.Jahn.{rank};
ghost use Rattle.tensor_defs.specs.Lists.{IsListing};
ghost use Rattle.tensor_defs.specs.OperationOrder.{comes_before};
ghost use Rattle.text_defs.specs.Requests.{JahnAt};
ghost use Rattle.jahn_grammar.specs.Symbols.{symbol_of};
ghost use Rattle.magnetic_groups.specs.Sets.{In};
ghost use Rattle.request_lines.specs.Readings.{TellsJahn};
ghost use Rattle.tensor_cli.specs.Kinds.{IsGroupStop, IsNear, IsOverRank, IsUnaccepted, jahn_at};

use crate::stops::NoAnswer;
use jahn_grammar::{Jahn, JahnFault, RankCount, read_jahn, scan_jahn};
use line_runs::{Refusal, Word};
use magnetic_groups::{Group, GroupFault, build_group};
use request_lines::{Named, Span};
use std::alloc::Global;

/// The group of a symbol.
pub fn accepted_group(alloc: Global, named: &Named) -> Result<Group, NoAnswer>
    requires { IsNear named.now }
    ensures group { IfOk result (λ g. IsListing comes_before (InGroup named.now.tree) g) }
    ensures framed { IfOk result (λ g. IsFramed (In g)) }
    ensures accepted { IfOk result (λ _. IsAccepted named.now.tree) }
    ensures refused { IfErr result (IsUnaccepted named.now) }
{
    match build_group(alloc, &named.tree) {
        Ok(group) => Ok(group),
        Err(GroupFault::Primes) => Err(NoAnswer::Refused(Refusal::at(Word::Primes, named.start))),
        Err(GroupFault::NoMemory) => Err(NoAnswer::NoMemory),
    }
}

/// The groups of two symbols.
pub fn accepted_groups(alloc: Global, g: &Named, h: &Named) -> Result<(Group, Group), NoAnswer>
    requires { IsNear g.now × IsNear h.now }
    ensures first { IfOk result (λ p. IsListing comes_before (InGroup g.now.tree) p.0 × IsFramed (In p.0) × IsAccepted g.now.tree) }
    ensures second { IfOk result (λ p. IsListing comes_before (InGroup h.now.tree) p.1 × IsFramed (In p.1) × IsAccepted h.now.tree) }
    ensures stop { IfErr result (IsGroupStop (g.now ∷ h.now ∷ [])) }
{
    let one = accepted_group(alloc, g)?;
    match accepted_group(alloc, h) {
        Ok(other) => Ok((one, other)),
        Err(stop) => Err(stop),
    }
}

/// The tensor of a word that is a Jahn symbol. `NoMemory` comes only at a rank up to 6.
pub fn tensor_in_rank(alloc: Global, line: &[u8], span: Span) -> Result<Jahn, NoAnswer>
    requires short { length line.now ≤ 4000 }
    requires told { (b : JahnAt) × TellsJahn line.now span b }
    ensures jahn { IfOk result (λ j. (b : JahnAt) → TellsJahn line.now span b → b ≡ jahn_at span (symbol_of j)) }
    ensures rank { IfOk result (λ j. rank (symbol_of j) ≤ 6) }
    ensures refused { IfErr result (IsOverRank line.now span) }
{
    match read_jahn(alloc, &line[span.start..span.end]) {
        Ok(jahn) => Ok(jahn),
        Err(JahnFault::Rank) => Err(NoAnswer::Refused(Refusal::at(Word::Rank, span.start))),
        // A word that spells a symbol isn't refused as one that spells none.
        Err(JahnFault::Syntax { place: _ }) => Err(NoAnswer::NoMemory),
        Err(JahnFault::NoMemory) => Err(NoAnswer::NoMemory),
    }
}

/// Whether a word that is a Jahn symbol has a rank up to 6.
pub fn is_in_rank(line: &[u8], span: Span) -> bool
    requires short { length line.now ≤ 4000 }
    requires told { (b : JahnAt) × TellsJahn line.now span b }
    ensures { (b : JahnAt) → TellsJahn line.now span b → MatchBool result (rank b.jahn ≤ 6) (6 < rank b.jahn) }
{
    match scan_jahn(&line[span.start..span.end]) {
        Ok(RankCount::Known(_)) => true,
        Ok(RankCount::More) => false,
        // A word that spells a symbol isn't refused as one that spells none.
        Err(_) => false,
    }
}
