//! The pair classes.
ghost use Rattle.std.specs.Prelude.{◌≡◌, ◌≤◌, ◌++◌, ◌∷◌, [], List, ℕ, IfErr, IfOk, OnErr, OnOk, codes, length, map, vec_capacity};
ghost use Rattle.std.specs.Fmt.{decimal};
ghost use Rattle.tensor_defs.specs.Operation.{Operation};
ghost use Rattle.tensor_defs.specs.OperationOrder.{comes_before};
ghost use Rattle.tensor_defs.specs.Lists.{IsListing};
ghost use Rattle.tensor_defs.specs.Group.{InGroup};
ghost use Rattle.tensor_defs.specs.States.{AreStates};
ghost use Rattle.tensor_defs.specs.PairClasses as defs;
ghost use Rattle.tensor_defs.specs.PairClasses.{ArePairClasses};
ghost use Rattle.text_defs.specs.AnswerTexts.{class_line, class_lines, line_of, name_text, pairs_text, yes_no};
ghost use Rattle.text_defs.specs.GroupTexts.{group_text};
ghost use Rattle.text_defs.specs.NumberTexts.{spaced};
ghost use Rattle.text_defs.specs.Refusals.{IsOutside};
ghost use Rattle.magnetic_groups.specs.Sets.{In};
ghost use Rattle.twin_pairs.specs.Classes.{class_of};
ghost use Rattle.answer_writers.specs.Rows.{IsLonger};
ghost use Rattle.state_answers.specs.Gaps.{gap};

use crate::pieces::{write_count, write_front, write_number};
use answer_writers::{NoMemory, append_to};
use coset_states::{StateFault, States, list_states};
use group_symbol::{SymbolTree, write_group};
use magnetic_groups::{Group, GroupMarks};
use std::alloc::Global;
use twin_pairs::{Members, PairClass, pair_classes};

/// What stands before the number at a place of a list.
fn gap(place: usize) -> &'static [u8]
    ensures { result.now ≡ gap place }
{
    if place == 0 { b"" } else { b" " }
}

/// Appends the numbers of the states of a class. After `NoMemory` the list begins as before.
fn write_members(members: &Members, out: &mut Vec<u8>) -> Result<(), NoMemory>
    ensures ok { OnOk result (out.new.items ≡ out.old.items ++ spaced (map decimal members.now)) }
    ensures longer { IsLonger out.old.items out.new.items }
    ensures capacity { vec_capacity out.old ≤ vec_capacity out.new }
{
    for place in 0..members.len() {
        append_to(out, gap(place))?;
        write_number(members.at(place), out)?;
    }
    Ok(())
}

/// Appends the name of a group, or that it has none. After `NoMemory` the list begins as before.
fn write_name(name: &Option<SymbolTree>, out: &mut Vec<u8>) -> Result<(), NoMemory>
    ensures ok { OnOk result (out.new.items ≡ out.old.items ++ name_text name.now) }
    ensures longer { IsLonger out.old.items out.new.items }
    ensures capacity { vec_capacity out.old ≤ vec_capacity out.new }
{
    match name {
        Some(tree) => Ok(write_group(tree, out)?),
        None => append_to(out, b"none"),
    }
}

/// Appends a word, the name of a group and its order. After `NoMemory` the list begins as before.
fn write_named(
    word: &str,
    name: &Option<SymbolTree>,
    group: &GroupMarks,
    out: &mut Vec<u8>,
) -> Result<(), NoMemory>
    ensures ok { OnOk result (out.new.items ≡ out.old.items ++ word.now ++ spaced (name_text name.now ∷ codes "order" ∷ decimal (length group.now) ∷ [])) }
    ensures longer { IsLonger out.old.items out.new.items }
    ensures capacity { vec_capacity out.old ≤ vec_capacity out.new }
{
    append_to(out, word.as_bytes())?;
    write_name(name, out)?;
    append_to(out, b" order ")?;
    write_number(group.len(), out)
}

/// The words that tell whether the states of a pair may be exchanged.
fn swappable_words(swappable: bool) -> &'static [u8]
    ensures { result.now ≡ codes " swappable " ++ yes_no swappable }
{
    if swappable {
        b" swappable yes"
    } else {
        b" swappable no"
    }
}

/// Appends the number of a class and those of its states. After `NoMemory` the list begins as before.
fn write_numbers(number: usize, members: &Members, out: &mut Vec<u8>) -> Result<(), NoMemory>
    ensures ok { OnOk result (out.new.items ≡ out.old.items ++ spaced (codes "class" ∷ decimal number ∷ codes "states" ∷ spaced (map decimal members.now) ∷ [])) }
    ensures longer { IsLonger out.old.items out.new.items }
    ensures capacity { vec_capacity out.old ≤ vec_capacity out.new }
{
    append_to(out, b"class ")?;
    write_number(number, out)?;
    append_to(out, b" states ")?;
    write_members(members, out)
}

/// Appends the two groups of a class. After `NoMemory` the list begins as before.
fn write_both(class: &PairClass, out: &mut Vec<u8>) -> Result<(), NoMemory>
    ensures ok { OnOk result (out.new.items ≡ out.old.items ++ 32 ∷ spaced (codes "group" ∷ name_text class.now.pair_name ∷ codes "order" ∷ decimal (length class.now.pair_group) ∷ codes "twin" ∷ name_text class.now.twin_name ∷ codes "order" ∷ decimal (length class.now.twin_group) ∷ [])) }
    ensures longer { IsLonger out.old.items out.new.items }
    ensures capacity { vec_capacity out.old ≤ vec_capacity out.new }
{
    write_named(" group ", &class.pair_name, &class.pair_group, out)?;
    write_named(" twin ", &class.twin_name, &class.twin_group, out)
}

/// Appends the line of a class. After `NoMemory` the list begins as before.
fn write_class(number: usize, class: &PairClass, out: &mut Vec<u8>) -> Result<(), NoMemory>
    ensures ok { OnOk result (out.new.items ≡ out.old.items ++ class_line number (class_of class.now)) }
    ensures longer { IsLonger out.old.items out.new.items }
    ensures capacity { vec_capacity out.old ≤ vec_capacity out.new }
{
    write_numbers(number, &class.members, out)?;
    append_to(out, swappable_words(class.swappable))?;
    write_both(class, out)?;
    append_to(out, b"\n")
}

/// Appends a line for each class. After `NoMemory` the list begins as before.
fn write_classes(classes: &[PairClass], out: &mut Vec<u8>) -> Result<(), NoMemory>
    ensures ok { OnOk result (out.new.items ≡ out.old.items ++ class_lines 1 (map class_of classes.now)) }
    ensures longer { IsLonger out.old.items out.new.items }
    ensures capacity { vec_capacity out.old ≤ vec_capacity out.new }
{
    for place in 0..classes.len() {
        write_class(place + 1, &classes[place], out)?;
    }
    Ok(())
}

/// Appends the header. After `NoMemory` the list begins as before.
fn write_header(
    g: &SymbolTree,
    f: &SymbolTree,
    states: usize,
    classes: usize,
    out: &mut Vec<u8>,
) -> Result<(), NoMemory>
    ensures ok { OnOk result (out.new.items ≡ out.old.items ++ line_of (codes "pairs" ∷ group_text g.now ∷ group_text f.now ∷ codes "states" ∷ decimal states ∷ codes "classes" ∷ decimal classes ∷ [])) }
    ensures longer { IsLonger out.old.items out.new.items }
    ensures capacity { vec_capacity out.old ≤ vec_capacity out.new }
{
    write_front("pairs", g, f, "states", states, out)?;
    write_count("classes", classes, out)?;
    append_to(out, b"\n")
}

/// Appends the header and a line for each class. After `NoMemory` the list begins as before.
fn write_listing(
    g: &SymbolTree,
    f: &SymbolTree,
    states: usize,
    classes: &[PairClass],
    out: &mut Vec<u8>,
) -> Result<(), NoMemory>
    ensures ok { OnOk result (out.new.items ≡ out.old.items ++ pairs_text g.now f.now states (map class_of classes.now)) }
    ensures longer { IsLonger out.old.items out.new.items }
    ensures capacity { vec_capacity out.old ≤ vec_capacity out.new }
{
    write_header(g, f, states, classes.len(), out)?;
    write_classes(classes, out)
}

/// Appends the classes. After `NoMemory`, the only fault, the list is as before.
fn write_pairs(
    g: &SymbolTree,
    f: &SymbolTree,
    states: usize,
    classes: &[PairClass],
    out: &mut Vec<u8>,
) -> Result<(), StateFault>
    ensures ok { OnOk result (out.new.items ≡ out.old.items ++ pairs_text g.now f.now states (map class_of classes.now)) }
    ensures err { OnErr result (out.new.items ≡ out.old.items) }
    ensures memory { IfErr result (λ e. e ≡ StateFault.NoMemory) }
    ensures capacity { vec_capacity out.old ≤ vec_capacity out.new }
{
    let start = out.len();
    match write_listing(g, f, states, classes, out) {
        Ok(()) => Ok(()),
        Err(_) => {
            out.truncate(start);
            Err(StateFault::NoMemory)
        }
    }
}

/// The classes. `NoMemory` is the only fault.
fn list_classes(alloc: Global, states: &States) -> Result<Vec<PairClass>, StateFault>
    ensures ok { IfOk result (λ v. ArePairClasses (In states.now.whole) (In states.now.sub) states.now.reps (map class_of v.items)) }
    ensures memory { IfErr result (λ e. e ≡ StateFault.NoMemory) }
{
    match pair_classes(alloc, states) {
        Ok(classes) => Ok(classes),
        Err(_) => Err(StateFault::NoMemory),
    }
}

/// Appends the answer to a request for the pair classes of the domain states. After an error the list is as before.
pub fn answer_pairs(
    alloc: Global,
    g: &SymbolTree,
    f: &SymbolTree,
    whole: Group,
    sub: Group,
    out: &mut Vec<u8>,
) -> Result<(), StateFault>
    requires whole { IsListing comes_before (InGroup g.now) whole }
    requires sub { IsListing comes_before (InGroup f.now) sub }
    ensures ok { OnOk result ((reps : List Operation) × AreStates (InGroup g.now) (InGroup f.now) reps × (cs : List defs.PairClass) × ArePairClasses (InGroup g.now) (InGroup f.now) reps cs × (out.new.items ≡ out.old.items ++ pairs_text g.now f.now (length reps) cs)) }
    ensures within { OnOk result ((k : ℕ) → ¬ IsOutside g.now f.now k) }
    ensures refused { IfErr result (λ e. (k : ℕ) → e ≡ StateFault.NotSubgroup k → IsOutside g.now f.now k) }
    ensures err { OnErr result (out.new.items ≡ out.old.items) }
    ensures capacity { vec_capacity out.old ≤ vec_capacity out.new }
{
    let states = list_states(alloc, whole, sub)?;
    let classes = list_classes(alloc, &states)?;
    write_pairs(g, f, states.count(), &classes, out)
}
