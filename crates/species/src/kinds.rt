//! The kind of a ferroic species.
ghost use Rattle.species.specs.Told.{TellsKind};

use crate::leaders::Leaders;

/// How many states a property tells apart.
#[derive(Clone, Copy, Debug, PartialEq, Eq, Drop)]
pub enum Kind {
    /// There are two states at least, and each two are told apart.
    Full,
    /// Some two are told apart, and some two aren't.
    Partial,
    /// No two are told apart.
    Non,
}

/// The kind by the leaders of the states.
pub(crate) fn kind_of(leaders: &Leaders) -> Kind
    ensures { TellsKind leaders.now result }
{
    if leaders.are_ones() {
        Kind::Non
    } else if leaders.are_own() {
        Kind::Full
    } else {
        Kind::Partial
    }
}
