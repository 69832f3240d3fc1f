//! Names of groups: the first accepted symbol, in the order of symbols, whose group has the same elements. Source of
//! the symbols: International Tables for Crystallography D 1.1; the order is this project's own.
#![tactic(auto)]

ghost use Rattle.std.specs.Prelude.{◌≡◌, ◌≤◌, ◌<◌, ◌↔◌, ◌^◌, ◌-◌, ◌+◌, IsTrue, IfOk, [], ◌∷◌, true};
ghost use Rattle.std.specs.List.{flat_map};
ghost use Rattle.tensor_defs.specs.Group.{InGroup};
ghost use Rattle.tensor_defs.specs.Lists.{up_to};
ghost use Rattle.tensor_defs.specs.Names.{IsNamed, IsNameOf, symbols_with, turned_bits};
ghost use Rattle.tensor_defs.specs.Symbols.{IsGroupSymbol, operator_count, takes_setting};
ghost use Rattle.group_symbol.specs.Readings.{symbol_of};
ghost use Rattle.magnetic_groups.specs.Sets.{HasForm, In};
ghost use Rattle.group_names.specs.LookUps.{HaveForms, HoldsAll, IsFirstNamed, IsNumberOf, SameForms, oriented, pattern, row_of};

mod oriented;
#[cfg(test)]
mod tests;

use group_symbol::{Parent, Setting, SymbolTree, generators_of};
use magnetic_groups::{Group, GroupMarks};
use op_matrix::Op;
use oriented::{matrices_at, parent_at, setting_at};
use std::alloc::Global;

/// No memory was left.
#[derive(Clone, Copy, Debug, PartialEq, Eq, Drop)]
pub struct NoMemory;

/// Whether all the operations are elements.
fn holds_all(group: &GroupMarks, operations: &[Op]) -> bool
    ensures { IsTrue result ↔ HoldsAll group.now operations.now }
{
    for operation in operations {
        if !group.has(operation) {
            return false;
        }
    }
    true
}

/// Whether the symbol is accepted and its group is this one, where both have the same matrices.
fn is_named(group: &GroupMarks, tree: &SymbolTree) -> bool
    requires { SameForms (InGroup tree.now) (In group.now) }
    ensures { IsTrue result ↔ IsNamed tree.now (In group.now) }
{
    // what the length tells of the group is for the proof
    let _size = group.len();
    if tree.is_grey() != group.has(&Op::reversal()) {
        return false;
    }
    let operations = generators_of(tree);
    holds_all(group, operations.as_slice())
}

/// The symbol of these parts, where it is accepted and its group is this one.
fn try_symbol(
    group: &GroupMarks,
    parent: Parent,
    primes: u8,
    grey: bool,
    setting: Setting,
) -> Option<SymbolTree>
    requires symbol { IsGroupSymbol (symbol_of parent primes grey setting) }
    requires forms { HaveForms parent setting (In group.now) }
    ensures { IsFirstNamed (In group.now) (symbol_of parent primes grey setting ∷ []) result }
{
    let Some(tree) = SymbolTree::new(parent, primes, grey, setting) else {
        return None;
    };
    if is_named(group, &tree) {
        Some(tree)
    } else {
        None
    }
}

/// A number with its lowest binary digits in the other order.
fn turned_bits(count: usize, number: usize) -> u8
    requires few { count ≤ 4 }
    requires small { number < 16 }
    ensures is { result ≡ turned_bits count number }
    ensures below { result < 2 ^ count }
{
    let mut turned = 0;
    let mut rest = number;
    for _digit in 0..count {
        turned = 2 * turned + (rest % 2) as u8;
        rest /= 2;
    }
    turned
}

/// How many patterns of primes so many operators have.
fn patterns(operators: usize) -> usize
    requires { operators ≤ 4 }
    ensures is { result ≡ 2 ^ operators }
    ensures some { 1 ≤ result }
    ensures few { result ≤ 16 }
{
    1 << operators
}

/// The first name among the symbols with primes of a parent and a setting.
fn name_primed(group: &GroupMarks, parent: Parent, setting: Setting) -> Option<SymbolTree>
    requires first { 1 ≤ parent }
    requires last { parent ≤ 42 }
    requires takes { takes_setting parent setting ≡ true }
    requires forms { HaveForms parent setting (In group.now) }
    ensures { IsFirstNamed (In group.now) (flat_map (pattern parent setting) (up_to (2 ^ operator_count parent - 1))) result }
{
    let operators = parent.operators();
    for place in 0..patterns(operators) - 1 {
        let primes = turned_bits(operators, place + 1);
        if let Some(tree) = try_symbol(group, parent, primes, false, setting) {
            return Some(tree);
        }
    }
    None
}

/// The first name among the symbols of a parent and a setting.
fn name_with(group: &GroupMarks, parent: Parent, setting: Setting) -> Option<SymbolTree>
    requires first { 1 ≤ parent }
    requires last { parent ≤ 42 }
    requires takes { takes_setting parent setting ≡ true }
    requires forms { HaveForms parent setting (In group.now) }
    ensures { IsFirstNamed (In group.now) (symbols_with parent setting) result }
{
    if let Some(tree) = try_symbol(group, parent, 0, false, setting) {
        return Some(tree);
    }
    if let Some(tree) = try_symbol(group, parent, 0, true, setting) {
        return Some(tree);
    }
    name_primed(group, parent, setting)
}

/// The first name among the symbols of a row of the oriented parents, where the group has the matrices of the row: else
/// none of them names it.
fn name_oriented(group: &GroupMarks, matrices: u64, place: usize) -> Option<SymbolTree>
    requires listed { place < 61 }
    requires counted { IsNumberOf (HasForm (In group.now)) matrices }
    ensures { IsFirstNamed (In group.now) (oriented (row_of place)) result }
{
    if matrices_at(place) != matrices {
        return None;
    }
    name_with(group, parent_at(place), setting_at(place))
}

/// The first accepted symbol whose group has these elements; none exactly where there is none.
pub fn first_name(group: &GroupMarks) -> Option<SymbolTree>
    ensures { IsNameOf result (In group.now) }
{
    let matrices = group.matrices();
    for place in 0..61 {
        if let Some(tree) = name_oriented(group, matrices, place) {
            return Some(tree);
        }
    }
    None
}

/// The first accepted symbol whose group has these elements; none exactly where there is none.
pub fn name_of(_alloc: Global, group: &Group) -> Result<Option<SymbolTree>, NoMemory>
    ensures { IfOk result (λ o. IsNameOf o (In group.now)) }
{
    Ok(first_name(&group.marks()))
}
