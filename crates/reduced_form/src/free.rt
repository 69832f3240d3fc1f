//! The free components, and their places.
ghost use Rattle.std.specs.Prelude.{◌≡◌, ℕ, ◌+◌, ◌<◌, ◌≤◌, IfOk, OnOk, length, true, false};
ghost use Rattle.std.specs.List.{insert};
ghost use Rattle.sign_moves.specs.Firsts.{AreSettled};
ghost use Rattle.tensor_rank.specs.Orders.{before_at};
ghost use Rattle.reduced_form.specs.Forms.{ArePlaces, IsFreeUpTo, free_at};

use crate::memory::NoMemory;
use constraint_rows::Classes;
use std::alloc::Global;
use tensor_rank::{Comp, Order, Rank};

/// Where a component belongs among free components that rise in an order, looked for from a place on.
fn place_for<R: Rank>(free: &[u16], order: &Order<R>, c: usize, near: usize) -> usize
    requires component { c < R.LEN }
    requires near { near ≤ length free.now }
    requires below { (k : ℕ) → k < length free.now → free_at free.now k < R.LEN }
    requires rising { (i k : ℕ) → i < k → k < length free.now → before_at R.R order.now (free_at free.now i) (free_at free.now k) ≡ true }
    ensures within { result ≤ length free.now }
    ensures after { (k : ℕ) → result ≤ k → k < length free.now → before_at R.R order.now c (free_at free.now k) ≡ true }
    ensures before { (k : ℕ) → k + 1 ≡ result → before_at R.R order.now c (free_at free.now k) ≡ false }
{
    let mut place = near;
    while place > 0 && order.before(Comp::at(c), Comp::at(free[place - 1] as usize)) {
        place -= 1;
    }
    if place < near {
        return place;
    }
    while place < free.len() && !order.before(Comp::at(c), Comp::at(free[place] as usize)) {
        place += 1;
    }
    place
}

/// Puts a component at a place among free ones.
#[inline(always)]
fn put_free(free: &mut Vec<u16>, place: usize, c: u16) -> Result<(), NoMemory>
    requires { place ≤ length free.old.items }
    ensures { OnOk result (free.new.items ≡ insert free.old.items place c) }
{
    if place == free.len() {
        free.push(c)?;
        return Ok(());
    }
    free.insert(place, c)?;
    Ok(())
}

/// Takes a component among the free ones where it is the first of a class that doesn't vanish: near the place behind the
/// one that was taken last, which it tells anew.
fn take_free<R: Rank>(
    free: &mut Vec<u16>,
    classes: &Classes<R>,
    order: &Order<R>,
    c: usize,
    near: usize,
) -> Result<usize, NoMemory>
    requires component { c < R.LEN }
    requires near { near ≤ length free.old.items }
    requires free { IsFreeUpTo R.LEN (before_at R.R order.now) classes.now free.old.items c }
    ensures free { OnOk result (IsFreeUpTo R.LEN (before_at R.R order.now) classes.now free.new.items (c + 1)) }
    ensures near { IfOk result (λ place. place ≤ length free.new.items) }
{
    if let Some((first, _)) = classes.of(Comp::at(c)) {
        if first.number() as usize == c {
            let place = place_for(free, order, c, near);
            put_free(free, place, c as u16)?;
            return Ok(place + 1);
        }
    }
    Ok(near)
}

/// The first components of the classes that don't vanish, in the order.
pub fn free_components<R: Rank>(
    alloc: Global,
    classes: &Classes<R>,
    order: &Order<R>,
) -> Result<Vec<u16>, NoMemory>
    ensures { IfOk result (λ free. IsFreeUpTo R.LEN (before_at R.R order.now) classes.now free.items R.LEN) }
{
    let mut free = Vec::with_capacity(alloc, R::LEN)?;
    let mut near = 0;
    for c in 0..R::LEN {
        near = take_free(&mut free, classes, order, c, near)?;
    }
    Ok(free)
}

/// For each free component its place.
pub fn places_of<R: Rank>(alloc: Global, free: &[u16]) -> Result<Vec<u16>, NoMemory>
    requires below { (k : ℕ) → k < length free.now → free_at free.now k < R.LEN }
    requires few { length free.now ≤ R.LEN }
    requires apart { (i k : ℕ) → i < length free.now → k < length free.now → free_at free.now i ≡ free_at free.now k → i ≡ k }
    ensures { IfOk result (λ places. ArePlaces R.LEN free.now places.items (length free.now)) }
{
    let mut places = Vec::with_capacity(alloc, R::LEN)?;
    for _ in 0..R::LEN {
        places.push_reserved(0);
    }
    for k in 0..free.len() {
        places[free[k] as usize] = k as u16;
    }
    Ok(places)
}
