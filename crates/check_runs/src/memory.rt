//! Want of memory.

/// Memory was refused.
#[derive(Clone, Copy, Debug, PartialEq, Eq, Drop)]
pub(crate) struct NoMemory;

impl From<answer_writers::NoMemory> for NoMemory {
    fn from(_: answer_writers::NoMemory) -> NoMemory {
        NoMemory
    }
}

impl From<group_symbol::NoMemory> for NoMemory {
    fn from(_: group_symbol::NoMemory) -> NoMemory {
        NoMemory
    }
}

impl From<jahn_grammar::NoMemory> for NoMemory {
    fn from(_: jahn_grammar::NoMemory) -> NoMemory {
        NoMemory
    }
}

impl From<std::alloc::AllocError> for NoMemory {
    fn from(_: std::alloc::AllocError) -> NoMemory {
        NoMemory
    }
}
