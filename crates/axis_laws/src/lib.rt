//! Laws of the tables of groups with a threefold rotation about z, over the definitions of `tensor_defs`, each as the
//! contract of a function with no parameters.
#![tactic(auto)]

ghost use Rattle.axis_laws.specs.Laws.{OneElimination, RowsDecideInvariance};

/// Under a framed group that isn't all plain, the invariant tensors are exactly the component lists that are zero at
/// dropped components, elsewhere the sign times the representative, and on which the rows of the words add up to zero.
pub fn rows_decide_invariance()
    ensures { RowsDecideInvariance }
{}

/// The unknowns and the rows of the elimination are told by the symbol, the group and the order.
pub fn one_elimination()
    ensures { OneElimination }
{}
