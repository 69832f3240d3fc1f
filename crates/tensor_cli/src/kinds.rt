//! The answers to requests of each kind. Each call tells how many free components the headers of its answer name.
ghost use Rattle.std.specs.Prelude.{◌≡◌, ◌++◌, ◌≤◌, ℕ, List, IfErr, IfOk, OnErr, OnOk, length, vec_capacity};
ghost use Rattle.tensor_defs.specs.Elimination.{Grows};
ghost use Rattle.tensor_defs.specs.Frames.{IsFramed};
ghost use Rattle.tensor_defs.specs.Group.{InGroup};
ghost use Rattle.tensor_defs.specs.Lists.{IsListing};
ghost use Rattle.tensor_defs.specs.OperationOrder.{comes_before};
ghost use Rattle.tensor_defs.specs.Orders.{index_before};
ghost use Rattle.state_marks.specs.Told.{MarksGrow};
ghost use Rattle.text_defs.specs.Refusals.{IsOutside};
ghost use Rattle.text_defs.specs.Answers.{IsDifferText, IsFormText};
ghost use Rattle.text_defs.specs.Requests as defs;
ghost use Rattle.text_defs.specs.Requests.{JahnAt};
ghost use Rattle.magnetic_groups.specs.Sets.{In};
ghost use Rattle.request_lines.specs.Readings.{TellsJahn, TellsList};
ghost use Rattle.tensor_cli.specs.Kinds.{AddUp, IsFormFree, IsGrownBy, IsNear, IsShortList, IsStateStop, IsStop, IsTold, IsVoigtFree, NamesNone, group_at};

use crate::stops::NoAnswer;
use crate::symbols::{accepted_group, accepted_groups, tensor_in_rank};
use crate::tensors::{AnswersTensor, TensorFault, answer_list, list_in_rank};
use answer_writers::write_elements;
use coset_states::{StateFault, States, list_states};
use differ_answers::answer_in_states;
use group_symbol::SymbolTree;
use jahn_grammar::Jahn;
use line_runs::{Refusal, Word};
use magnetic_groups::Group;
use reduced_form::SolveFault;
use request_lines::{Named, Span, Weights};
use state_answers::{answer_pairs, answer_states};
use state_marks::DifferFault;
use std::alloc::Global;
use table_answers::{answer_form, answer_same};
use voigt_answers::answer_voigt;
use voigt_table::VoigtFault;

/// What states that can't be given mean for a request whose second group stands at a word.
fn state_stop(fault: StateFault, f: &Named) -> NoAnswer
    requires { IsNear f.now }
    ensures { IsStateStop fault f.now result }
{
    match fault {
        StateFault::NotSubgroup { first } => {
            let word = Word::NotSub(first);
            NoAnswer::Refused(Refusal::at(word, f.start))
        }
        StateFault::NoMemory => NoAnswer::NoMemory,
    }
}

/// The elements of a group.
pub fn elements(alloc: Global, g: &Named, out: &mut Vec<u8>) -> Result<usize, NoAnswer>
    requires near { IsNear g.now }
    ensures ok { OnOk result (IsGrownBy (defs.Request.Group (group_at g.now)) out.old.items out.new.items) }
    ensures free { IfOk result (λ n. n ≡ 0) }
    ensures stop { IfErr result (IsStop (defs.Request.Group (group_at g.now))) }
    ensures err { OnErr result (out.new.items ≡ out.old.items) }
    ensures capacity { vec_capacity out.old ≤ vec_capacity out.new }
{
    let group = accepted_group(alloc, g)?;
    match write_elements(&g.tree, &group, out) {
        Ok(()) => Ok(0),
        Err(_) => Err(NoAnswer::NoMemory),
    }
}

/// The component tables of a group.
#[derive(Clone, Copy)]
struct TablesOf<'a> {
    g: &'a SymbolTree,
    group: &'a Group,
}

impl AnswersTensor for TablesOf<'_> {
    ghost ready = { λ f. IsListing comes_before (InGroup f.g.now) f.group.now × IsFramed (In f.group.now) };

    ghost text = { λ f. IsFormText f.g.now };

    ghost free = { λ f. IsFormFree f.g.now };

    ghost grows = { λ f j. Grows j (InGroup f.g.now) index_before };

    fn answer(&self, alloc: Global, jahn: &Jahn, out: &mut Vec<u8>) -> Result<usize, TensorFault> {
        match answer_form(alloc, self.g, self.group, jahn, out) {
            Ok(free) => Ok(free),
            Err(SolveFault::TooLarge) => Err(TensorFault::TooLarge),
            Err(SolveFault::NoMemory) => Err(TensorFault::NoMemory),
        }
    }
}

/// The component tables of the tensors that a group admits.
pub fn forms(
    alloc: Global,
    line: &[u8],
    g: &Named,
    j: Span,
    out: &mut Vec<u8>,
) -> Result<usize, NoAnswer>
    requires near { IsNear g.now }
    requires short { length line.now ≤ 4000 }
    requires list { IsShortList line.now j }
    ensures ok { OnOk result (IsTold line.now j (λ js. IsGrownBy (defs.Request.Form (group_at g.now) js) out.old.items out.new.items)) }
    ensures free { IfOk result (λ n. IsTold line.now j (λ js. AddUp (IsFormFree g.now.tree) js n)) }
    ensures stop { IfErr result (λ e. IsTold line.now j (λ js. IsStop (defs.Request.Form (group_at g.now) js) e)) }
    ensures err { OnErr result (out.new.items ≡ out.old.items) }
    ensures capacity { vec_capacity out.old ≤ vec_capacity out.new }
{
    let group = accepted_group(alloc, g)?;
    list_in_rank(line, j)?;
    let tables = TablesOf {
        g: &g.tree,
        group: &group,
    };
    answer_list(alloc, line, j, &tables, out)
}

/// The Voigt table of the tensors that a group admits.
pub fn voigt(
    alloc: Global,
    line: &[u8],
    g: &Named,
    j: Span,
    weights: Weights,
    out: &mut Vec<u8>,
) -> Result<usize, NoAnswer>
    requires near { IsNear g.now }
    requires short { length line.now ≤ 4000 }
    requires told { (b : JahnAt) × TellsJahn line.now j b }
    ensures ok { OnOk result ((b : JahnAt) → TellsJahn line.now j b → IsGrownBy (defs.Request.Voigt (group_at g.now) b weights) out.old.items out.new.items) }
    ensures free { IfOk result (λ n. (b : JahnAt) → TellsJahn line.now j b → IsVoigtFree g.now.tree b.jahn weights n) }
    ensures stop { IfErr result (λ e. (b : JahnAt) → TellsJahn line.now j b → IsStop (defs.Request.Voigt (group_at g.now) b weights) e) }
    ensures err { OnErr result (out.new.items ≡ out.old.items) }
    ensures capacity { vec_capacity out.old ≤ vec_capacity out.new }
{
    let group = accepted_group(alloc, g)?;
    let jahn = tensor_in_rank(alloc, line, j)?;
    match answer_voigt(alloc, &g.tree, &group, &jahn, weights, out) {
        Ok(free) => Ok(free),
        Err(VoigtFault::Shape) => Err(NoAnswer::Refused(Refusal::at(Word::Shape, j.start))),
        Err(VoigtFault::TooLarge) => Err(NoAnswer::Refused(Refusal::at(Word::TooLarge, j.start))),
        Err(VoigtFault::NoMemory) => Err(NoAnswer::NoMemory),
    }
}

/// The domain states of the transition from a group to its subgroup.
pub fn states(alloc: Global, g: &Named, f: &Named, out: &mut Vec<u8>) -> Result<usize, NoAnswer>
    requires near { IsNear g.now × IsNear f.now }
    ensures ok { OnOk result (IsGrownBy (defs.Request.States (group_at g.now) (group_at f.now)) out.old.items out.new.items) }
    ensures free { IfOk result (λ n. n ≡ 0) }
    ensures stop { IfErr result (IsStop (defs.Request.States (group_at g.now) (group_at f.now))) }
    ensures err { OnErr result (out.new.items ≡ out.old.items) }
    ensures capacity { vec_capacity out.old ≤ vec_capacity out.new }
{
    let (whole, sub) = accepted_groups(alloc, g, f)?;
    match answer_states(alloc, &g.tree, &f.tree, whole, sub, out) {
        Ok(()) => Ok(0),
        Err(fault) => Err(state_stop(fault, f)),
    }
}

/// The classes of pairs of these states.
pub fn pairs(alloc: Global, g: &Named, f: &Named, out: &mut Vec<u8>) -> Result<usize, NoAnswer>
    requires near { IsNear g.now × IsNear f.now }
    ensures ok { OnOk result (IsGrownBy (defs.Request.Pairs (group_at g.now) (group_at f.now)) out.old.items out.new.items) }
    ensures free { IfOk result (λ n. n ≡ 0) }
    ensures stop { IfErr result (IsStop (defs.Request.Pairs (group_at g.now) (group_at f.now))) }
    ensures err { OnErr result (out.new.items ≡ out.old.items) }
    ensures capacity { vec_capacity out.old ≤ vec_capacity out.new }
{
    let (whole, sub) = accepted_groups(alloc, g, f)?;
    match answer_pairs(alloc, &g.tree, &f.tree, whole, sub, out) {
        Ok(()) => Ok(0),
        Err(fault) => Err(state_stop(fault, f)),
    }
}

/// The components that tell the states of a group under its subgroup apart.
#[derive(Clone, Copy)]
struct MarksOf<'a> {
    g: &'a SymbolTree,
    f: &'a SymbolTree,
    states: &'a States,
}

impl AnswersTensor for MarksOf<'_> {
    ghost ready = { λ m. IsListing comes_before (InGroup m.g.now) m.states.now.whole × IsListing comes_before (InGroup m.f.now) m.states.now.sub
        × IsFramed (In m.states.now.sub) };

    ghost text = { λ m. IsDifferText m.g.now m.f.now };

    ghost free = { λ _. NamesNone };

    ghost grows = { λ m j. MarksGrow j (InGroup m.g.now) (InGroup m.f.now) };

    fn answer(&self, alloc: Global, jahn: &Jahn, out: &mut Vec<u8>) -> Result<usize, TensorFault> {
        match answer_in_states(alloc, self.g, self.f, self.states, jahn, out) {
            Ok(()) => Ok(0),
            Err(DifferFault::TooLarge) => Err(TensorFault::TooLarge),
            Err(DifferFault::NoMemory) => Err(TensorFault::NoMemory),
        }
    }
}

/// The domain states of two groups.
fn states_between(
    alloc: Global,
    g: &SymbolTree,
    f: &SymbolTree,
    whole: Group,
    sub: Group,
) -> Result<States, StateFault>
    requires whole { IsListing comes_before (InGroup g.now) whole }
    requires sub { IsListing comes_before (InGroup f.now) sub }
    requires framed { IsFramed (In sub) }
    ensures whole { IfOk result (λ s. IsListing comes_before (InGroup g.now) s.whole) }
    ensures sub { IfOk result (λ s. IsListing comes_before (InGroup f.now) s.sub) }
    ensures framed { IfOk result (λ s. IsFramed (In s.sub)) }
    ensures within { OnOk result ((k : ℕ) → ¬ IsOutside g.now f.now k) }
    ensures refused { IfErr result (λ e. (k : ℕ) → e ≡ StateFault.NotSubgroup k → IsOutside g.now f.now k) }
{
    list_states(alloc, whole, sub)
}

/// The components of tensors that tell the states of a group under its subgroup apart.
pub fn differ(
    alloc: Global,
    line: &[u8],
    g: &Named,
    f: &Named,
    j: Span,
    out: &mut Vec<u8>,
) -> Result<usize, NoAnswer>
    requires near { IsNear g.now × IsNear f.now }
    requires short { length line.now ≤ 4000 }
    requires list { IsShortList line.now j }
    ensures ok { OnOk result (IsTold line.now j (λ js. IsGrownBy (defs.Request.Differ (group_at g.now) (group_at f.now) js) out.old.items out.new.items)) }
    ensures free { IfOk result (λ n. IsTold line.now j (λ js. AddUp NamesNone js n)) }
    ensures stop { IfErr result (λ e. IsTold line.now j (λ js. IsStop (defs.Request.Differ (group_at g.now) (group_at f.now) js) e)) }
    ensures err { OnErr result (out.new.items ≡ out.old.items) }
    ensures capacity { vec_capacity out.old ≤ vec_capacity out.new }
{
    let (whole, sub) = accepted_groups(alloc, g, f)?;
    list_in_rank(line, j)?;
    match states_between(alloc, &g.tree, &f.tree, whole, sub) {
        Err(fault) => Err(state_stop(fault, f)),
        Ok(states) => {
            let marks = MarksOf {
                g: &g.tree,
                f: &f.tree,
                states: &states,
            };
            answer_list(alloc, line, j, &marks, out)
        }
    }
}

/// Whether two groups admit the same tensors.
pub fn same(
    alloc: Global,
    line: &[u8],
    g: &Named,
    h: &Named,
    j: Span,
    out: &mut Vec<u8>,
) -> Result<usize, NoAnswer>
    requires near { IsNear g.now × IsNear h.now }
    requires short { length line.now ≤ 4000 }
    requires told { (b : JahnAt) × TellsJahn line.now j b }
    ensures ok { OnOk result ((b : JahnAt) → TellsJahn line.now j b → IsGrownBy (defs.Request.Same (group_at g.now) (group_at h.now) b) out.old.items out.new.items) }
    ensures free { IfOk result (λ n. n ≡ 0) }
    ensures stop { IfErr result (λ e. (b : JahnAt) → TellsJahn line.now j b → IsStop (defs.Request.Same (group_at g.now) (group_at h.now) b) e) }
    ensures err { OnErr result (out.new.items ≡ out.old.items) }
    ensures capacity { vec_capacity out.old ≤ vec_capacity out.new }
{
    let (one, other) = accepted_groups(alloc, g, h)?;
    let jahn = tensor_in_rank(alloc, line, j)?;
    match answer_same(alloc, &g.tree, &h.tree, &one, &other, &jahn, out) {
        Ok(()) => Ok(0),
        Err(SolveFault::TooLarge) => Err(NoAnswer::Refused(Refusal::at(Word::TooLarge, j.start))),
        Err(SolveFault::NoMemory) => Err(NoAnswer::NoMemory),
    }
}
