//! The walk that divides components into classes.
ghost use Rattle.std.specs.Prelude.{◌≡◌, ℕ, ◌+◌, ◌<◌, ◌≤◌, List, length, IfOk, OnOk};
ghost use Rattle.sign_moves.specs.Moves.{IsReversible};
ghost use Rattle.sign_moves.specs.Classes.{IsClassTable};
ghost use Rattle.sign_moves.specs.Walks.{IsStep, IsVisit, IsWalk, IsWalked};

use crate::classes::Entry;
use crate::memory::NoMemory;
use crate::moves::Moves;
use crate::signs::times;
use std::alloc::Global;
use tensor_defs::Sign;

/// Each component in a class of its own.
fn single_classes<M: Moves>(alloc: Global, moves: &M) -> Result<Vec<Entry>, NoMemory>
    requires { M.size moves.now ≤ 729 }
    ensures { IfOk result (λ table. IsWalked (M.size moves.now) (M.moves moves.now) table.items 0) }
{
    let mut table = Vec::with_capacity(alloc, moves.size())?;
    for c in 0..moves.size() {
        table.push_reserved(Entry {
            first: c as u16,
            sign: Sign::Plus,
            vanishes: false,
        });
    }
    Ok(table)
}

/// Carries the component at the head of the queue by one move. Where that leads to a component that no walk has come
/// to, it joins the class and the queue; elsewhere the class is marked to vanish if the sign differs from the table's.
fn step<M: Moves>(
    moves: &M,
    table: &mut [Entry],
    queue: &mut Vec<u16>,
    root: usize,
    head: usize,
    place: usize,
) -> Result<(), NoMemory>
    requires small { M.size moves.now ≤ 729 }
    requires reversible { IsReversible (M.size moves.now) (M.moves moves.now) }
    requires place { place < (M.moves moves.now).count }
    requires head { head < length queue.old.items }
    requires walk { IsWalk (M.size moves.now) (M.moves moves.now) table.old root queue.old.items head }
    ensures { OnOk result (IsStep (M.size moves.now) (M.moves moves.now) table.old table.new root queue.old.items queue.new.items head place) }
{
    let c = queue[head] as usize;
    let (next, sign) = moves.carry(place, c);
    let here = table[c];
    let there = table[next];
    if here.first < there.first {
        table[next] = Entry {
            first: here.first,
            sign: times(sign, here.sign),
            vanishes: false,
        };
        queue.push(next as u16)?;
        return Ok(());
    }
    if here.sign != times(sign, there.sign) {
        let entry = table[root];
        table[root] = Entry {
            first: entry.first,
            sign: entry.sign,
            vanishes: true,
        };
        return Ok(());
    }
    Ok(())
}

/// Carries the component at the head of the queue by each move.
fn visit<M: Moves>(
    moves: &M,
    table: &mut [Entry],
    queue: &mut Vec<u16>,
    root: usize,
    head: usize,
) -> Result<(), NoMemory>
    requires small { M.size moves.now ≤ 729 }
    requires reversible { IsReversible (M.size moves.now) (M.moves moves.now) }
    requires head { head < length queue.old.items }
    requires walk { IsWalk (M.size moves.now) (M.moves moves.now) table.old root queue.old.items head }
    ensures { OnOk result (IsVisit (M.size moves.now) (M.moves moves.now) table.old table.new root queue.old.items queue.new.items head) }
{
    for place in 0..moves.count() {
        step(moves, table, queue, root, head, place)?;
    }
    Ok(())
}

/// Walks over the class of a component: carries each component of the queue, from the head on, by each move.
fn walk<M: Moves>(
    moves: &M,
    table: &mut [Entry],
    queue: &mut Vec<u16>,
    root: usize,
    start: usize,
) -> Result<(), NoMemory>
    requires small { M.size moves.now ≤ 729 }
    requires reversible { IsReversible (M.size moves.now) (M.moves moves.now) }
    requires start { start ≤ length queue.old.items }
    requires walk { IsWalk (M.size moves.now) (M.moves moves.now) table.old root queue.old.items start }
    ensures { OnOk result (IsWalked (M.size moves.now) (M.moves moves.now) table.new (root + 1)) }
{
    let mut head = start;
    while head < queue.len() {
        visit(moves, table, queue, root, head)?;
        head += 1;
    }
    Ok(())
}

/// Walks over the class of a component that no walk has come to.
fn walk_from<M: Moves>(
    moves: &M,
    table: &mut [Entry],
    queue: &mut Vec<u16>,
    number: usize,
) -> Result<(), NoMemory>
    requires small { M.size moves.now ≤ 729 }
    requires reversible { IsReversible (M.size moves.now) (M.moves moves.now) }
    requires number { number < M.size moves.now }
    requires walked { IsWalked (M.size moves.now) (M.moves moves.now) table.old number }
    ensures { OnOk result (IsWalked (M.size moves.now) (M.moves moves.now) table.new (number + 1)) }
{
    if (table[number].first as usize) < number {
        return Ok(());
    }
    let start = queue.len();
    queue.push(number as u16)?;
    walk(moves, table, queue, number, start)
}

/// Walks over each class, and so divides components into the classes that the moves join, and marks those that vanish.
fn divide<M: Moves>(alloc: Global, moves: &M, table: &mut [Entry]) -> Result<(), NoMemory>
    requires small { M.size moves.now ≤ 729 }
    requires reversible { IsReversible (M.size moves.now) (M.moves moves.now) }
    requires walked { IsWalked (M.size moves.now) (M.moves moves.now) table.old 0 }
    ensures { OnOk result (IsClassTable (M.size moves.now) (M.moves moves.now) table.new) }
{
    let mut queue = Vec::with_capacity(alloc, moves.size())?;
    for number in 0..moves.size() {
        walk_from(moves, table, &mut queue, number)?;
    }
    Ok(())
}

/// The classes into which moves divide the components, each with its lowest component, and where each list that
/// the moves keep is zero. Components are numbered, and at most 729.
pub fn class_table<M: Moves>(alloc: Global, moves: &M) -> Result<Vec<Entry>, NoMemory>
    requires size { M.size moves.now ≤ 729 }
    requires reversible { IsReversible (M.size moves.now) (M.moves moves.now) }
    ensures { IfOk result (λ table. IsClassTable (M.size moves.now) (M.moves moves.now) table.items) }
{
    let mut table = single_classes(alloc, moves)?;
    divide(alloc, moves, &mut table)?;
    Ok(table)
}
