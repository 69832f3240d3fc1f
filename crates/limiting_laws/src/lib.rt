//! Laws of the limiting groups about z, over the definitions of `limiting_defs`, each as the contract of a function with
//! no parameters.
#![tactic(auto)]

ghost use Rattle.limiting_laws.specs.Laws.{DiagonalsAccepted, TurnsDecide, TurningRowsDecide};

/// A component list is unchanged by all rational rotations about z exactly where every word vanishes whose count of +
/// isn't its count of -.
pub fn turns_decide()
    ensures { TurnsDecide }
{}

/// The tensors that a limiting group leaves unchanged are exactly the component lists that follow the representatives
/// of its diagonal members, and on which the rows of these words add up to zero.
pub fn turning_rows_decide()
    ensures { TurningRowsDecide }
{}

/// The symbols of the diagonal members are accepted.
pub fn diagonals_accepted()
    ensures { DiagonalsAccepted }
{}
