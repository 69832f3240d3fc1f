//! The closing of generators: the marks of all products of finite lists of them.
ghost use Rattle.std.specs.Prelude.{◌≡◌, ◌+◌, ◌≤◌, length, Contains, ◌++◌, ◌∷◌, []};
ghost use Rattle.tensor_defs.specs.Operation.{Operation};
ghost use Rattle.group_closing.specs.Marks.{marked_below, Added, Grows, IsClosed, IsClosing, IsDone, Reached, unmarked};
ghost use Rattle.group_closing.specs.Sets.{HaveFrame, IsKept, Spanned};

use crate::found::Found;
use crate::joining::join;
use crate::marks::Marks;
use op_matrix::Op;

/// Marks the operation and puts it at the list's end, where it isn't marked yet.
pub fn add(op: Op, marks: &mut Marks, found: &mut Found)
    requires sized { length marks.old ≡ 128 }
    requires counted { length found.old + unmarked marks.old ≡ 128 }
    ensures { Added op marks.old found.old marks.new found.new }
{
    if !marks.has(&op) {
        marks.mark(&op);
        found.push(op);
    }
}

/// Adds the products of all generators with the element.
fn reach(generators: &[Op], element: &Op, marks: &mut Marks, found: &mut Found)
    requires frame { HaveFrame generators.now }
    requires closing { IsClosing generators.now marks.old found.old }
    requires reached { Reached marks.old element.now }
    ensures closing { IsClosing generators.now marks.new found.new }
    ensures grows { Grows marks.old found.old marks.new found.new }
    ensures done { IsDone generators.now marks.new element.now }
{
    for generator in generators {
        add(generator.product(element), marks, found);
    }
}

/// Closes under the products with the generators, where the first `done` elements are done. Each element found is
/// multiplied by the generators alone.
pub fn finish(generators: &[Op], done: usize, marks: &mut Marks, found: &mut Found)
    requires frame { HaveFrame generators.now }
    requires closed { IsClosed generators.now done marks.old found.old }
    ensures closed { IsClosed generators.now (length found.new) marks.new found.new }
    ensures grows { Grows marks.old found.old marks.new found.new }
{
    let mut next = done;
    while next < found.len() {
        let element = found.at(next);
        reach(generators, &element, marks, found);
        next += 1;
    }
}

/// The marks of all products of the generators.
pub fn close_marks(generators: &[Op]) -> Marks
    requires { HaveFrame generators.now }
    ensures { IsKept generators.now (marked_below 128 result) result }
{
    let mut marks = Marks::none();
    let mut found = Found::none();
    let mut firsts = Found::none();
    add(Op::identity(), &mut marks, &mut found);
    for place in 0..generators.len() {
        let more = &generators[place];
        join(
            &generators[..place],
            more,
            &mut firsts,
            &mut marks,
            &mut found,
        );
    }
    marks
}

/// The marks of all products of the generators of a group, whose elements and marks are given, and one more.
pub fn join_marks(generators: &[Op], more: &Op, elements: &[Op], mut marks: Marks) -> Marks
    requires frame { HaveFrame (generators.now ++ more.now ∷ []) }
    requires group { IsKept generators.now elements.now marks }
    ensures { IsKept (generators.now ++ more.now ∷ []) (marked_below 128 result) result }
{
    let mut found = Found::of(elements);
    let mut firsts = Found::none();
    join(generators, more, &mut firsts, &mut marks, &mut found);
    marks
}
