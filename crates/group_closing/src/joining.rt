//! A group that grows by an operation: it is made of cosets of the group before, so whole cosets are added at once, and only
//! their first elements are multiplied by the generators.
ghost use Rattle.std.specs.Prelude.{◌≡◌, ◌+◌, ◌<◌, ◌≤◌, ◌++◌, ◌∷◌, [], length, slice_index_or, false};
ghost use Rattle.tensor_defs.specs.Frames.{HaveCommonFrame};
ghost use Rattle.tensor_defs.specs.Operation.{Operation};
ghost use Rattle.op_matrix.specs.Table.{place};
ghost use Rattle.group_closing.specs.Joining.{AreCosets, HoldsGroup, InFront, IsAdding};
ghost use Rattle.group_closing.specs.Marks.{Grows, IsDone, Reached, mark_at, unmarked};
ghost use Rattle.group_closing.specs.Sets.{HaveFrame};

use crate::closing::add;
use crate::found::Found;
use crate::marks::Marks;
use op_matrix::Op;

/// Adds the coset of a new operation: its products with the first elements, which are as many as `order` tells.
fn add_coset(first: &Op, order: usize, marks: &mut Marks, found: &mut Found)
    requires sized { length marks.old ≡ 128 }
    requires counted { length found.old + unmarked marks.old ≡ 128 }
    requires within { order ≤ length found.old }
    requires frame { (t : Operation) → InFront order found.old t → HaveCommonFrame first.now t }
    requires new { mark_at marks.old (place first.now) ≡ false }
    ensures { IsAdding first.now order order marks.old found.old marks.new found.new }
{
    for place in 0..order {
        let element = found.at(place);
        add(first.product(&element), marks, found);
    }
}

/// The generator at a place: those of the group before, and one more behind them.
fn generator_at(generators: &[Op], more: &Op, place: usize) -> Op
    requires { place ≤ length generators.now }
    ensures { (d : Operation) → slice_index_or (generators.now ++ more.now ∷ []) place d ≡ result }
{
    if place < generators.len() {
        generators[place]
    } else {
        *more
    }
}

/// Adds the cosets of the products of all generators with the first element of a coset.
fn reach_cosets(
    generators: &[Op],
    more: &Op,
    first: &Op,
    order: usize,
    firsts: &mut Found,
    marks: &mut Marks,
    found: &mut Found,
)
    requires frame { HaveFrame (generators.now ++ more.now ∷ []) }
    requires cosets { AreCosets (generators.now ++ more.now ∷ []) order firsts.old marks.old found.old }
    requires reached { Reached marks.old first.now }
    ensures cosets { AreCosets (generators.now ++ more.now ∷ []) order firsts.new marks.new found.new }
    ensures firsts { Grows marks.old firsts.old marks.new firsts.new }
    ensures done { IsDone (generators.now ++ more.now ∷ []) marks.new first.now }
{
    for place in 0..generators.len() + 1 {
        let generator = generator_at(generators, more, place);
        let product = generator.product(first);
        if !marks.has(&product) {
            add_coset(&product, order, marks, found);
            firsts.push(product);
        }
    }
}

/// Makes a group, the elements found, grow by one more generator. The first elements of the cosets are kept in `firsts`.
pub fn join(generators: &[Op], more: &Op, firsts: &mut Found, marks: &mut Marks, found: &mut Found)
    requires frame { HaveFrame (generators.now ++ more.now ∷ []) }
    requires group { HoldsGroup generators.now marks.old found.old }
    ensures { HoldsGroup (generators.now ++ more.now ∷ []) marks.new found.new }
{
    let order = found.len();
    firsts.clear();
    firsts.push(Op::identity());
    let mut next = 0;
    while next < firsts.len() {
        let first = firsts.at(next);
        reach_cosets(generators, more, &first, order, firsts, marks, found);
        next += 1;
    }
}
