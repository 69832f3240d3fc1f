//! Products of operations.
ghost use Rattle.tensor_action.specs.Turns.{ComponentsActInTurn, ListsActInTurn};

use tensor_rank::Rank;

/// A product of two operations carries each tensor of rank R as the two do in turn: component by component, and so do
/// the lists that the action answers.
pub fn products_act_in_turn<R: Rank>()
    ensures components { ComponentsActInTurn R.R R.LEN }
    ensures lists { ListsActInTurn R.R R.LEN }
{}
