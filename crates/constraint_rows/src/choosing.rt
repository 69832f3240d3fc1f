//! Which words give rows.
ghost use Rattle.std.specs.Prelude.{◌≡◌, ◌+◌, ◌≤◌};
ghost use Rattle.tensor_defs.specs.Words.{begins_plus, minus_count, plus_count};
ghost use Rattle.constraint_rows.specs.Choices.{is_chosen};
ghost use Rattle.constraint_rows.specs.Gathering.{word_at};

use tensor_rank::{Comp, Rank};

/// The rotations about z for which words give rows.
#[derive(Clone, Copy, Debug, PartialEq, Eq)]
pub(crate) enum Rotations {
    /// The threefold one.
    Threefold,
    /// All of them.
    All,
}

/// How many + and how many - a word has, and whether its first letter other than z is +.
#[derive(Clone, Copy)]
struct Counts {
    plus: u8,
    minus: u8,
    begins: bool,
}

/// The counts of a word. The digits 1, 2, 3 of a component stand for the letters z, +, -.
fn counts_of<R: Rank>(word: Comp<R>) -> Counts
    ensures plus { result.plus ≡ plus_count (word_at R.R word) }
    ensures minus { result.minus ≡ minus_count (word_at R.R word) }
    ensures begins { result.begins ≡ begins_plus (word_at R.R word) }
    ensures few { result.plus + result.minus ≤ R.R }
{
    let mut plus = 0u8;
    let mut minus = 0u8;
    let mut begins = false;
    for place in (0..R::R).rev() {
        match word.digit(place) {
            1 => {}
            2 => {
                plus += 1;
                begins = true;
            }
            _ => {
                minus += 1;
                begins = false;
            }
        }
    }
    Counts {
        plus,
        minus,
        begins,
    }
}

/// Whether a word gives rows: the rotations don't all leave its sum the same, and its first letter other than z is +.
pub(crate) fn is_chosen<R: Rank>(rotations: Rotations, word: Comp<R>) -> bool
    ensures { result ≡ is_chosen rotations (word_at R.R word) }
{
    let counts = counts_of(word);
    match rotations {
        Rotations::Threefold => { (counts.plus + 2 * counts.minus) % 3 != 0 && counts.begins }
        Rotations::All => counts.plus != counts.minus && counts.begins,
    }
}
