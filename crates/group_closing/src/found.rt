//! The operations that the closing of a group has found.
ghost use Rattle.std.specs.Prelude.{◌≡◌, ◌<◌, ◌≤◌, length, [], ◌∷◌, ◌++◌, slice_index_or};
ghost use Rattle.tensor_defs.specs.Operation.{Operation};

use op_matrix::Op;
use std::marker::Model;

/// At most 128 operations, in the order in which they were found.
#[derive(Drop)]
pub struct Found {
    operations: [Op; 128],
    len: usize,
}

impl Model for Found {
    ghost use Rattle.std.specs.Prelude.{◌≤◌, List, take};
    ghost use Rattle.tensor_defs.specs.Operation.{Operation};

    ghost Value = { List Operation };

    ghost view = { λ f. take f.len f.operations };

    ghost invariant = { λ f. f.len ≤ 128 };
}

impl Found {
    /// No operations.
    pub fn none() -> Found
        ensures { result ≡ [] }
    {
        Found {
            operations: [Op::identity(); 128],
            len: 0,
        }
    }

    /// The operations of a list, at most 128.
    pub fn of(operations: &[Op]) -> Found
        requires { length operations.now ≤ 128 }
        ensures { result ≡ operations.now }
    {
        let mut found = Found::none();
        for operation in operations {
            found.push(*operation);
        }
        found
    }

    /// Takes all operations away.
    pub fn clear(&mut self)
        ensures { self.new ≡ [] }
    {
        self.len = 0;
    }

    /// Puts an operation at the end.
    pub fn push(&mut self, operation: Op)
        requires { length self.old < 128 }
        ensures { self.new ≡ self.old ++ operation ∷ [] }
    {
        self.operations[self.len] = operation;
        self.len += 1;
    }

    /// The operations.
    fn as_slice(&self) -> &[Op]
        ensures { result.now ≡ self.now }
    {
        &self.operations[..self.len]
    }

    /// How many they are.
    pub fn len(&self) -> usize
        ensures { result ≡ length self.now }
    {
        self.as_slice().len()
    }

    /// The operation at a place, counted from 0.
    pub fn at(&self, place: usize) -> Op
        requires { place < length self.now }
        ensures { (d : Operation) → slice_index_or self.now place d ≡ result }
    {
        self.as_slice()[place]
    }
}
