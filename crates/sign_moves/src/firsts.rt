//! The first component of each class in an order.
ghost use Rattle.std.specs.Prelude.{◌≡◌, ℕ, ◌+◌, ◌<◌, ◌≤◌, IfOk, length, get_or};
ghost use Rattle.sign_moves.specs.Best.{AreLinks, IsBest, IsBestUpTo, best_at, link_of};
ghost use Rattle.sign_moves.specs.Classes.{IsClassTable, first_at};
ghost use Rattle.sign_moves.specs.Firsts.{IsFirstTable, IsStrict};
ghost use Rattle.sign_moves.specs.Moves.{IsReversible, Moves};

use crate::classes::Entry;
use crate::engine::class_table;
use crate::memory::NoMemory;
use crate::moves::Moves;
use crate::signs::times;
use std::alloc::Global;

/// A strict order of components, by their numbers.
pub trait Precedence {
    ghost use Rattle.std.specs.Prelude.{◌≡◌, ◌<◌, ℕ, Bool};
    ghost use Rattle.sign_moves.specs.Firsts.{IsStrict};

    /// How many components there are.
    ghost size: { Self → ℕ };

    /// Whether one comes before another.
    ghost order: { Self → ℕ → ℕ → Bool };

    /// Whether one component comes before another.
    fn precedes(&self, one: usize, other: usize) -> bool
        requires one { one < size self.now }
        requires other { other < size self.now }
        ensures { result ≡ order self.now one other };

    /// No component comes before itself, and the order is transitive.
    ghost strict: { (p : Self) → IsStrict (order p) };
}

/// Each component as the first of its class.
fn own_best(alloc: Global, size: usize) -> Result<Vec<u16>, NoMemory>
    requires { size ≤ 729 }
    ensures len { IfOk result (λ best. length best.items ≡ size) }
    ensures own { IfOk result (λ best. (c : ℕ) → c < size → get_or best.items c 0 ≡ c) }
{
    let mut best = Vec::with_capacity(alloc, size)?;
    for c in 0..size {
        best.push_reserved(c as u16);
    }
    Ok(best)
}

/// Takes a component as the first of its class where it comes before the one that is kept.
fn improve_best<P: Precedence>(best: &mut [u16], classes: &[Entry], order: &P, c: usize)
    requires component { c < P.size order.now }
    requires small { P.size order.now ≤ 729 }
    requires size { length classes.now ≡ P.size order.now }
    requires below { (d : ℕ) → d < P.size order.now → first_at classes.now d < P.size order.now }
    requires best { IsBestUpTo (P.size order.now) (P.order order.now) classes.now best.old c }
    ensures { IsBestUpTo (P.size order.now) (P.order order.now) classes.now best.new (c + 1) }
{
    let root = classes[c].first as usize;
    if order.precedes(c, best[root] as usize) {
        best[root] = c as u16;
    }
}

/// The first component, in an order, of each class, at the component that the table of classes has for it.
fn best_of_classes<P: Precedence>(
    alloc: Global,
    classes: &[Entry],
    order: &P,
) -> Result<Vec<u16>, NoMemory>
    requires small { P.size order.now ≤ 729 }
    requires size { length classes.now ≡ P.size order.now }
    requires below { (d : ℕ) → d < P.size order.now → first_at classes.now d < P.size order.now }
    ensures { IfOk result (λ best. IsBest (P.size order.now) (P.order order.now) classes.now best.items) }
{
    let size = classes.len();
    let mut best = own_best(alloc, size)?;
    for c in 0..size {
        improve_best(&mut best, classes, order, c);
    }
    Ok(best)
}

/// The entry of one component.
fn link(classes: &[Entry], best: &[u16], c: usize) -> Entry
    requires component { c < length classes.now }
    requires root { first_at classes.now c < length classes.now }
    requires size { length best.now ≡ length classes.now }
    requires below { best_at best.now (first_at classes.now c) < length classes.now }
    ensures { result ≡ link_of classes.now best.now c }
{
    let entry = classes[c];
    let first = best[entry.first as usize];
    Entry {
        first,
        sign: times(entry.sign, classes[first as usize].sign),
        vanishes: classes[entry.first as usize].vanishes,
    }
}

/// For each component the first one of its class, in an order, and the sign with which it is carried there.
fn links<P: Precedence>(alloc: Global, classes: &[Entry], order: &P) -> Result<Vec<Entry>, NoMemory>
    requires small { P.size order.now ≤ 729 }
    requires size { length classes.now ≡ P.size order.now }
    requires below { (d : ℕ) → d < P.size order.now → first_at classes.now d < P.size order.now }
    ensures { IfOk result (λ links. AreLinks (P.size order.now) (P.order order.now) classes.now links.items) }
{
    let best = best_of_classes(alloc, classes, order)?;
    let mut links = Vec::with_capacity(alloc, classes.len())?;
    for c in 0..classes.len() {
        links.push_reserved(link(classes, &best, c));
    }
    Ok(links)
}

/// The table of first components that a table of classes gives, for whichever moves the classes are made.
pub fn firsts_of_classes<P: Precedence>(
    alloc: Global,
    classes: &[Entry],
    order: &P,
) -> Result<Vec<Entry>, NoMemory>
    requires small { P.size order.now ≤ 729 }
    requires size { length classes.now ≡ P.size order.now }
    requires below { (d : ℕ) → d < P.size order.now → first_at classes.now d < P.size order.now }
    ensures { IfOk result (λ table. (m : Moves) → IsReversible (P.size order.now) m → IsClassTable (P.size order.now) m classes.now → IsFirstTable (P.size order.now) m (P.order order.now) table.items) }
{
    links(alloc, classes, order)
}

/// For each component the first one, in an order, to which moves carry it, with the sign between the two, and
/// whether each list that the moves keep is zero there.
pub fn first_table<M: Moves, P: Precedence>(
    alloc: Global,
    moves: &M,
    order: &P,
) -> Result<Vec<Entry>, NoMemory>
    requires size { M.size moves.now ≤ 729 }
    requires same_size { P.size order.now ≡ M.size moves.now }
    requires reversible { IsReversible (M.size moves.now) (M.moves moves.now) }
    ensures { IfOk result (λ table. IsFirstTable (M.size moves.now) (M.moves moves.now) (P.order order.now) table.items) }
{
    let classes = class_table(alloc, moves)?;
    firsts_of_classes(alloc, &classes, order)
}
