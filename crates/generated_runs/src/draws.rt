//! Request lines that are made from a seed.
ghost use Rattle.std.specs.Prelude.{◌≡◌, ◌+◌, ◌*◌, ◌%◌, ◌<◌, ◌≤◌, ◌++◌, length, OnOk};
ghost use Rattle.generated_runs.specs.Requests.{after_words, kind_at, line_from, name_of, next, size_of, state_after, text_at, words_from, words_of};

use crate::room::append;
use tensor_ports::NoMemory;
use tensor_vectors::{jahn_row, symbol_row};

/// A kind of request.
#[derive(Clone, Copy, Debug, PartialEq, Eq, Drop)]
pub enum Kind {
    Form,
    Group,
    Voigt,
    States,
    Pairs,
    Differ,
    Same,
}

/// What a word of a request is drawn from.
#[derive(Clone, Copy, Drop)]
pub enum Choice {
    Symbol,
    Tensor,
    Weights,
}

/// The kinds, as they are drawn and counted.
pub static KINDS: [Kind; 7] = [
    Kind::Form,
    Kind::Group,
    Kind::Voigt,
    Kind::States,
    Kind::Pairs,
    Kind::Differ,
    Kind::Same,
];

/// The words that begin their requests.
pub static NAMES: [&str; 7] = [
    "form", "group", "voigt", "states", "pairs", "differ", "same",
];

impl Kind {
    /// The word that begins its requests.
    fn name(self) -> &'static str
        ensures { result.now ≡ name_of self }
    {
        match self {
            Kind::Form => "form",
            Kind::Group => "group",
            Kind::Voigt => "voigt",
            Kind::States => "states",
            Kind::Pairs => "pairs",
            Kind::Differ => "differ",
            Kind::Same => "same",
        }
    }

    /// From what its other words are drawn.
    fn words(self) -> &'static [Choice]
        ensures { result.now ≡ words_of self }
    {
        match self {
            Kind::Form => &[Choice::Symbol, Choice::Tensor],
            Kind::Group => &[Choice::Symbol],
            Kind::Voigt => &[Choice::Symbol, Choice::Tensor, Choice::Weights],
            Kind::States | Kind::Pairs => &[Choice::Symbol, Choice::Symbol],
            Kind::Differ | Kind::Same => &[Choice::Symbol, Choice::Symbol, Choice::Tensor],
        }
    }
}

/// A generator of request lines.
#[derive(Debug, Drop)]
pub struct Draws {
    pub state: u64,
    ghost in_range: { state < 2147483647 },
}

impl Draws {
    /// Begins at a seed.
    pub fn new(seed: u64) -> Draws
        requires { seed < 2147483647 }
        ensures { result.state ≡ seed }
    {
        Draws { state: seed }
    }

    /// Goes on to the next state, and gives it modulo a number.
    fn draw(&mut self, below: u64) -> usize
        requires { 0 < below }
        ensures state { self.new.state ≡ next self.old.state }
        ensures value { result ≡ self.new.state % below }
        ensures below { result < below }
    {
        self.state = 16807 * self.state % 2147483647;
        (self.state % below) as usize
    }

    /// Draws a word.
    fn draw_text(&mut self, choice: Choice) -> &'static str
        ensures state { self.new.state ≡ next self.old.state }
        ensures text { result.now ≡ text_at choice self.new.state }
    {
        match choice {
            Choice::Symbol => symbol_row(self.draw(122) + 1).unwrap(),
            Choice::Tensor => jahn_row(self.draw(8)).unwrap(),
            Choice::Weights => ["c", "s"][self.draw(2)],
        }
    }

    /// Makes the next line, in the place of what the list held.
    pub fn make_line(&mut self, line: &mut Vec<u8>) -> Result<(), NoMemory>
        ensures line { OnOk result (line.new.items ≡ line_from self.old.state) }
        ensures state { OnOk result (self.new.state ≡ state_after self.old.state) }
    {
        let kind = KINDS[self.draw(7)];
        line.clear();
        append(line, kind.name().as_bytes())?;
        for choice in kind.words() {
            append(line, b" ")?;
            append(line, self.draw_text(*choice).as_bytes())?;
        }
        Ok(())
    }
}
