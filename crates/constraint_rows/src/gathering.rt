//! Rows gathered component by component, in an order.
ghost use Rattle.std.specs.Prelude.{◌≡◌, ◌<◌, ◌≤◌, ◌+ℤ◌, OnOk, length, unsigned_abs};
ghost use Rattle.tensor_rank.specs.Orders.{before_at};
ghost use Rattle.constraint_rows.specs.Gathering.{AreSmallParts, IsPlaceFor, added, counted_at, part_at_place, unit};
ghost use Rattle.constraint_rows.specs.WordRows.{AreParts, parts_rise};
ghost use Rattle.tensor_defs.specs.Lists.{IsRising};

use crate::rows::Part;
use sign_moves::{NoMemory, Sign};
use tensor_rank::{Comp, Order, Rank};

/// A number with 1 or -1 added.
fn counted(number: i64, sign: Sign) -> i64
    requires { unsigned_abs number ≤ 729 }
    ensures { result ≡ number +ℤ unit sign }
{
    match sign {
        Sign::Plus => number + 1,
        Sign::Minus => number - 1,
    }
}

/// How many parts, from the first on, come before a component. Since parts rise, and a component mostly belongs behind
/// most of them, they are looked at from the last on.
fn place_for<R: Rank>(parts: &[Part], order: &Order<R>, d: Comp<R>) -> usize
    requires parts { AreParts R.LEN parts.now }
    requires rising { IsRising (parts_rise (before_at R.R order.now)) parts.now }
    ensures { IsPlaceFor (before_at R.R order.now) d parts.now result }
{
    let mut place = parts.len();
    while place > 0 && !order.before(Comp::at(parts[place - 1].component as usize), d) {
        place -= 1;
    }
    place
}

/// Adds 1 or -1 at the part of a place, and leaves the part out where that gives 0.
fn count_at(parts: &mut Vec<Part>, place: usize, sign: Sign)
    requires place { place < length parts.old.items }
    requires small { unsigned_abs (part_at_place parts.old.items place).number ≤ 729 }
    ensures { parts.new.items ≡ counted_at parts.old.items place (unit sign) }
{
    let part = parts[place];
    let number = counted(part.number, sign);
    if number == 0 {
        parts.remove(place);
    } else {
        parts[place] = Part {
            component: part.component,
            number,
        };
    }
}

/// Adds 1 or -1 at a component.
pub(crate) fn add_part<R: Rank>(
    parts: &mut Vec<Part>,
    order: &Order<R>,
    d: Comp<R>,
    sign: Sign,
) -> Result<(), NoMemory>
    requires { AreSmallParts R.LEN (before_at R.R order.now) 729 parts.old.items }
    ensures { OnOk result (parts.new.items ≡ added (before_at R.R order.now) d (unit sign) parts.old.items) }
{
    let place = place_for(parts, order, d);
    if place < parts.len() && parts[place].component == d.number() {
        count_at(parts, place, sign);
        return Ok(());
    }
    let number = counted(0, sign);
    parts.insert(
        place,
        Part {
            component: d.number(),
            number,
        },
    )?;
    Ok(())
}
