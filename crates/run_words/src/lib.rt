//! The words of the command line: which of them ask for a generated run, and for how many lines from which seed.
#![tactic(auto)]

ghost use Rattle.std.specs.Prelude.{◌≡◌, List, ℕ, map, string_bytes, [], true, IfOk, IfErr, OnOk, MatchOption};
ghost use Rattle.run_words.specs.Words.{IsInRange, IsNumber, NumberAt, Asks, AsksRows, tensors_app, given_words, HasNoFault, IsTaken};
ghost use Rattle.clap.specs.Words.{found_of, kind_of, matches_of, rows_of, takes, fault_of, app_of};

#[cfg(test)]
mod tests;

use clap::error::ErrorKind;
use clap::{Arg, ArgAction, ArgMatches, Command, Error};
use std::alloc::{AllocError, Global};

/// Memory was refused.
#[derive(Clone, Copy, Debug, PartialEq, Eq, Drop)]
pub struct NoMemory;

/// A generated run: how many lines are made, and from which seed.
#[derive(Clone, Copy, Debug, PartialEq, Eq, Drop)]
pub struct Generate {
    pub count: u64,
    pub seed: u64,
}

/// The generated run that the words after the program's name ask for; none where they aren't accepted.
pub fn read_words(alloc: Global, words: &[String]) -> Result<Option<Generate>, NoMemory>
    ensures asks { IfOk result (Asks (map string_bytes words.now)) }

    // Words that clap takes have no fault.
    ensures taken { OnOk result (IsTaken (map string_bytes words.now) → HasNoFault (map string_bytes words.now)) }
{
    let Ok(all) = given(alloc, words) else {
        return Err(NoMemory);
    };
    match read_matches(alloc, all.as_slice()) {
        Ok(matches) => Ok(run_of(&matches)),
        Err(error) => {
            if error.kind() == ErrorKind::OutOfMemory {
                Err(NoMemory)
            } else {
                Ok(None)
            }
        }
    }
}

/// The list that is given to the command.
fn given<'a>(alloc: Global, words: &'a [String]) -> Result<Vec<&'a str>, AllocError>
    ensures { IfOk result (λ all. map (λ s. s.now) all.items ≡ given_words (map string_bytes words.now)) }
{
    let mut all = Vec::new(alloc);
    all.push("tensors")?;
    for word in words {
        all.push(word.as_str())?;
    }
    Ok(all)
}

/// What the command makes of this list.
fn read_matches<'a>(alloc: Global, all: &'a [&'a str]) -> Result<ArgMatches<'a>, Error>
    ensures ok { IfOk result (λ m. rows_of (found_of m) ≡ matches_of tensors_app (map (λ s. s.now) all.entry.now)) }
    ensures err { IfErr result (λ e. takes tensors_app (map (λ s. s.now) all.entry.now) ≡ true → kind_of e ≡ ErrorKind.OutOfMemory) }
    ensures faultless { OnOk result (fault_of tensors_app (map (λ s. s.now) all.entry.now) ≡ []) }
    ensures faulty { IfErr result (λ e. fault_of tensors_app (map (λ s. s.now) all.entry.now) ≡ [] → kind_of e ≡ ErrorKind.OutOfMemory) }
{
    command(alloc)?.try_get_matches_from(all)
}

/// The command: two options, each with one value.
fn command<'a>(alloc: Global) -> Result<Command<'a>, AllocError>
    ensures { IfOk result (λ c. app_of c ≡ tensors_app) }
{
    let generate = Arg::new(alloc, "generate")
        .long("generate")
        .action(ArgAction::Set);
    let seed = Arg::new(alloc, "seed").long("seed").action(ArgAction::Set);
    let empty = Command::new(alloc, "tensors");
    let half = empty.arg(generate)?;
    half.arg(seed)
}

/// The run that the two options ask for.
fn run_of(matches: &ArgMatches<'_>) -> Option<Generate>
    ensures { AsksRows (rows_of (found_of matches.now)) result }
{
    match option_number(matches, "generate") {
        None => None,
        Some(count) => match option_number(matches, "seed") {
            None => None,
            Some(seed) => in_range(count, seed),
        },
    }
}

/// The number that an option is given.
fn option_number(matches: &ArgMatches<'_>, id: &str) -> Option<u64>
    ensures { MatchOption result ((n : ℕ) → NumberAt (rows_of (found_of matches.now)) id.now n → ⊥) (NumberAt (rows_of (found_of matches.now)) id.now) }
{
    match matches.get_str(id) {
        None => None,
        Some(text) => match read_number(text) {
            None => None,
            Some(number) => Some(number),
        },
    }
}

/// Reads 1 to 10 digits.
fn read_number(text: &str) -> Option<u64>
    ensures { MatchOption result ((n : ℕ) → IsNumber text.now n → ⊥) (IsNumber text.now) }
{
    let bytes = text.as_bytes();
    if bytes.is_empty() || bytes.len() > 10 {
        return None;
    }
    let mut value = 0u64;
    for byte in bytes {
        if *byte < b'0' || *byte > b'9' {
            return None;
        }
        value = value * 10 + (*byte - b'0') as u64;
    }
    Some(value)
}

/// A run, where both numbers are in range.
fn in_range(count: u64, seed: u64) -> Option<Generate>
    ensures { IsInRange count seed result }
{
    if count <= 100000 && seed >= 1 && seed <= 2147483646 {
        return Some(Generate { count, seed });
    }
    None
}
