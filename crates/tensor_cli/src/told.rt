//! What becomes of the lines of a generated run.
ghost use Rattle.std.specs.Prelude.{◌≡◌, ◌<◌, ◌≤◌, List, ℕ, Some, length, IfOk};
ghost use Rattle.text_defs.specs.Requests as defs;
ghost use Rattle.text_defs.specs.Requests.{SpellsRequest};
ghost use Rattle.text_defs.specs.declared.Format.TheVariants.{One};
ghost use Rattle.request_lines.specs.Readings.{Tells};
ghost use Rattle.line_runs.specs.Words.{word_of};
ghost use Rattle.generated_runs.specs.Told.{Becomes, kind_of, refusal_of};

use crate::answers::try_answer;
use crate::stops::NoAnswer;
use generated_runs::{Answers, Kind, LineOutcome, Refusal};
use line_runs::{Format, NoMemory, Word};
use request_lines::{Request, read_request};
use std::alloc::Global;

/// The kind of a request.
fn kind(request: &Request) -> Kind
    requires { request.now ≡ Request.Comment → ⊥ }
    ensures { (line : List ℕ) (q : defs.Request) → Tells line request.now q → kind_of q ≡ Some result }
{
    match request {
        Request::Form { g: _, j: _ } => Kind::Form,
        Request::Group { g: _ } => Kind::Group,
        Request::Voigt {
            g: _,
            j: _,
            weights: _,
        } => Kind::Voigt,
        Request::States { g: _, f: _ } => Kind::States,
        Request::Pairs { g: _, f: _ } => Kind::Pairs,
        Request::Differ { g: _, f: _, j: _ } => Kind::Differ,
        Request::Same { g: _, h: _, j: _ } => Kind::Same,
        Request::Comment => unreachable!(),
    }
}

/// The sort of a refusal.
fn sort(word: Word) -> Refusal
    ensures { result ≡ refusal_of (word_of word) }
{
    match word {
        Word::Long => Refusal::Long,
        Word::Syntax => Refusal::Syntax,
        Word::Primes => Refusal::Primes,
        Word::Rank => Refusal::Rank,
        Word::Shape => Refusal::Shape,
        Word::NotSub(_) => Refusal::NotSub,
        Word::TooLarge => Refusal::TooLarge,
    }
}

/// Answers a request that was read from a line of an input in format 1, and tells what became of the line.
fn tell_request(
    alloc: Global,
    line: &[u8],
    request: &Request,
    out: &mut Vec<u8>,
) -> Result<LineOutcome, NoMemory>
    requires some { 0 < length line.now }
    requires short { length line.now ≤ 1000 }
    requires read { (q : defs.Request) × SpellsRequest One line.now q × Tells line.now request.now q }
    ensures { IfOk result (λ outcome. (number : ℕ) → Becomes number line.now outcome) }
{
    match try_answer(alloc, Format::One, line, request, out) {
        Ok(free) => Ok(LineOutcome::Answered(kind(request), free)),
        Err(NoAnswer::Refused(refusal)) => Ok(LineOutcome::Refused(sort(refusal.word))),
        Err(NoAnswer::NoMemory) => Err(NoMemory),
    }
}

/// What answers the lines of a generated run, one after another in the same list, and tells what becomes of them.
#[derive(Drop)]
pub struct Teller {
    alloc: Global,
    out: Vec<u8>,
}

impl Teller {
    /// Takes no memory before the first line.
    pub fn new(alloc: Global) -> Teller {
        Teller {
            alloc,
            out: Vec::new(alloc),
        }
    }
}

impl Answers for Teller {
    ghost becomes = { Becomes };

    fn answer(&mut self, _: u64, line: &[u8]) -> Result<LineOutcome, NoMemory> {
        self.out.clear();
        match read_request(Format::One, line) {
            Err(_) => Ok(LineOutcome::Refused(Refusal::Syntax)),
            Ok(request) => tell_request(self.alloc, line, &request, &mut self.out),
        }
    }
}
