//! What the tables tell of moves, as the contracts of functions with no parameters.
ghost use Rattle.sign_moves.specs.Laws.{FirstsTell, JoinedTell, TablesTell};

/// A table of classes tells where each list that the moves keep is zero, and to which components moves carry another.
pub fn tables_tell()
    ensures { TablesTell }
{}

/// So does a table of first components.
pub fn firsts_tell()
    ensures { FirstsTell }
{}

/// Two lists of moves keep together what each of them keeps.
pub fn joined_tell()
    ensures { JoinedTell }
{}
