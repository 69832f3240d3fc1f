//! The generators of a symbol's group.
ghost use Rattle.std.specs.Prelude.{◌≡◌, ◌+◌, ◌≤◌, ◌<◌, [], ◌∷◌, ◌++◌, Some, length, slice_get, IsTrue, ◌↔◌};
ghost use Rattle.tensor_defs.specs.Symbols.{generators, operations_of, turned_to};
ghost use Rattle.group_symbol.specs.Tables.{operators_of};

use crate::tree::SymbolTree;
use op_matrix::{Op, generator};
use std::marker::Model;
use tensor_defs::{Direction, OpKind, Setting};

/// The most operations that a symbol can have: four operators and time reversal.
const MOST: usize = 5;

/// At most five operations, in the order of the symbol's operators.
#[derive(Drop)]
pub struct Generators {
    operations: [Op; MOST],
    len: usize,
}

impl Model for Generators {
    ghost use Rattle.std.specs.Prelude.{◌≤◌, List, take};
    ghost use Rattle.tensor_defs.specs.Operation.{Operation};

    ghost Value = { List Operation };

    ghost view = { λ g. take g.len g.operations };

    ghost invariant = { λ g. g.len ≤ 5 };
}

impl Generators {
    /// No operations.
    fn none() -> Generators
        ensures { result ≡ [] }
    {
        Generators {
            operations: [Op::identity(); MOST],
            len: 0,
        }
    }

    /// Appends an operation.
    fn push(&mut self, operation: Op)
        requires { length self.old < 5 }
        ensures { self.new ≡ self.old ++ operation ∷ [] }
    {
        self.operations[self.len] = operation;
        self.len += 1;
    }

    /// The operations.
    pub fn as_slice(&self) -> &[Op]
        ensures value { result.now ≡ self.now }
        ensures few { length self.now ≤ 5 }
    {
        &self.operations[..self.len]
    }

    /// How many they are.
    pub fn len(&self) -> usize
        ensures value { result ≡ length self.now }
        ensures few { result ≤ 5 }
    {
        self.as_slice().len()
    }

    /// Whether there is none.
    pub fn is_empty(&self) -> bool
        ensures { IsTrue result ↔ (length self.now ≡ 0) }
    {
        self.as_slice().is_empty()
    }

    /// The operation at a place below their number.
    pub fn at(&self, place: usize) -> Op
        requires { place < length self.now }
        ensures { slice_get self.now place ≡ Some result }
    {
        self.as_slice()[place]
    }
}

/// The direction that a setting puts in place of one of the default setting.
pub fn turned_to(setting: Setting, direction: Direction) -> Direction
    ensures { result ≡ turned_to setting direction }
{
    match (setting, direction) {
        (Setting::X, Direction::Y) => Direction::X,
        (Setting::Z, Direction::Y) => Direction::Z,
        (Setting::XY, Direction::Y) => Direction::XY,
        (Setting::D, Direction::X) => Direction::XY,
        (Setting::D, Direction::Y) => Direction::XmY,
        (Setting::P, Direction::Z) => Direction::XYZ,
        (Setting::P, Direction::X) => Direction::XmY,
        _ => direction,
    }
}

/// The operations of the operators, turned to the setting and primed by their bits.
fn operations_of(setting: Setting, primes: u8, operators: &[(OpKind, Direction)]) -> Generators
    requires { length operators.now ≤ 4 }
    ensures value { result ≡ operations_of setting primes (operators_of operators.now) }
    ensures few { length result ≤ 4 }
{
    let mut found = Generators::none();
    let mut left = primes;
    for (kind, direction) in operators {
        if let Some(operation) = generator(*kind, turned_to(setting, *direction), left % 2 == 1) {
            found.push(operation);
        }
        left /= 2;
    }
    found
}

/// The operations that generate the group of a symbol: those of its operators from left to right, and time
/// reversal where it is grey.
pub fn generators_of(tree: &SymbolTree) -> Generators
    ensures { result ≡ generators tree.now }
{
    let mut found = operations_of(tree.setting, tree.primes, tree.parent.operator_list());
    if tree.grey {
        found.push(Op::reversal());
    }
    found
}
