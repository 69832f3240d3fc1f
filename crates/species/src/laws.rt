//! Laws of states that are told apart.
ghost use Rattle.species.specs.Laws.{ElementsAreFree, SameIsEquivalence};

/// Whichever elements of two states are taken, they tell the states apart by the same tensors.
pub fn elements_are_free()
    ensures { ElementsAreFree }
{}

/// Not to be told apart is an equivalence of states.
pub fn same_is_equivalence()
    ensures { SameIsEquivalence }
{}
