/// Memory was refused.
#[derive(Clone, Copy, Debug, PartialEq, Eq, Drop)]
pub struct NoMemory;

impl From<answer_writers::NoMemory> for NoMemory {
    fn from(_: answer_writers::NoMemory) -> NoMemory {
        NoMemory
    }
}

impl From<group_symbol::NoMemory> for NoMemory {
    fn from(_: group_symbol::NoMemory) -> NoMemory {
        NoMemory
    }
}

impl From<jahn_grammar::NoMemory> for NoMemory {
    fn from(_: jahn_grammar::NoMemory) -> NoMemory {
        NoMemory
    }
}

impl From<voigt_table::NoMemory> for NoMemory {
    fn from(_: voigt_table::NoMemory) -> NoMemory {
        NoMemory
    }
}
