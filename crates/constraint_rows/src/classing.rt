//! The classes of components under a group of signed permutation matrices and the exchanges of a symbol's blocks.
ghost use Rattle.std.specs.Prelude.{◌≡◌, ℕ, ◌<◌, IfOk, length, Contains};
ghost use Rattle.tensor_defs.specs.Frames.{AllOf, IsPlain};
ghost use Rattle.tensor_defs.specs.Jahn.{IsInvariant, JahnSymbol};
ghost use Rattle.magnetic_groups.specs.Sets.{In};
ghost use Rattle.sign_moves.specs.Firsts.{AreSettled, IsFirstTable};
ghost use Rattle.tensor_rank.specs.Carried.{TellsClass};
ghost use Rattle.tensor_rank.specs.Flags.{marks_of};
ghost use Rattle.tensor_rank.specs.Orders.{before_at, before_of};
ghost use Rattle.tensor_rank.specs.Shapes.{IsShapeOf};
ghost use Rattle.tensor_rank.specs.Within.{AllWithin};
ghost use Rattle.constraint_rows.specs.Classes.{GroupStep, IsPlainTable, class_at, moves_of};
ghost use Rattle.constraint_rows.specs.PlainOps.{ArePermutations, StandForAll};

use crate::op_moves::OpMoves;
use crate::ops::PlainOp;
use crate::reading::plain_of;
use magnetic_groups::Group;
use op_matrix::Op;
use sign_moves::{Entry, Joined, NoMemory, Sign, Tabled, first_table};
use std::alloc::Global;
use std::marker::{Model, PhantomData};
use tensor_rank::{Comp, Exchange, ExchangeMoves, Flags, Order, Rank, Shape};

/// Classes of the components of rank R, each with the component that stands for it: those under a group of plain
/// operations, or those on the hexagonal axes.
#[derive(Drop)]
pub struct Classes<R: Rank> {
    table: Vec<Entry>,
    of: PhantomData<R>,
}

impl<R: Rank> Model for Classes<R> {
    ghost use Rattle.std.specs.Prelude.{List};
    ghost use Rattle.sign_moves.specs.declared.classes.Entry.{Entry};
    ghost use Rattle.sign_moves.specs.Firsts.{AreSettled};

    ghost Value = { List Entry };

    ghost view = { λ c. c.table.items };

    ghost invariant = { λ c. AreSettled R.LEN c.table.items };
}

/// Plain operations by their rows, with the signs that tensors with these marks take.
fn plain_ops(alloc: Global, operations: &[Op], flags: Flags) -> Result<Vec<PlainOp>, NoMemory>
    requires { AllOf (In operations.now) IsPlain }
    ensures { IfOk result (λ ops. StandForAll (marks_of flags) operations.now ops.items) }
{
    let mut ops = Vec::new(alloc);
    for place in 0..operations.len() {
        ops.push(plain_of(&operations[place], flags))?;
    }
    Ok(ops)
}

/// The first component, in an order, to which matrices and exchanges of blocks carry each other one.
fn plain_table<R: Rank>(
    alloc: Global,
    exchanges: &[Exchange],
    ops: &[PlainOp],
    order: &Order<R>,
) -> Result<Vec<Entry>, NoMemory>
    requires within { AllWithin R.R exchanges.now }
    requires permutations { ArePermutations ops.now }
    ensures { IfOk result (λ table. IsFirstTable R.LEN (moves_of R.R exchanges.now ops.now) (before_at R.R order.now) table.items) }
{
    let moves = Joined::new(ExchangeMoves::<R>::new(exchanges), OpMoves::<R>::new(ops));
    let tabled = Tabled::new(alloc, &moves)?;
    let table = first_table(alloc, &tabled, order)?;
    Ok(table)
}

/// The classes of the components under a group of plain operations and the exchanges of a symbol's blocks: none where
/// each invariant tensor is zero, else the first component in the order to which group elements and exchanges carry it.
pub fn plain_classes<R: Rank>(
    alloc: Global,
    group: &Group,
    shape: &Shape<R>,
    order: &Order<R>,
) -> Result<Classes<R>, NoMemory>
    requires { AllOf (In group.now) IsPlain }
    ensures table { IfOk result (IsPlainTable R.LEN R.R group.now shape.now order.now) }
    ensures classes { IfOk result (λ cs. (j : JahnSymbol) → IsShapeOf j R.R shape.now → (c : ℕ) → c < R.LEN → TellsClass (GroupStep j (In group.now)) (IsInvariant j (In group.now)) (before_of order.now) R.R c (class_at cs c)) }
{
    let ops = plain_ops(alloc, group.generators(), shape.flags())?;
    let table = plain_table::<R>(alloc, shape.exchanges(), &ops, order)?;
    Ok(Classes {
        table,
        of: PhantomData,
    })
}

impl<R: Rank> Classes<R> {
    /// The classes of a table of settled entries.
    pub(crate) fn of_table(table: Vec<Entry>) -> Classes<R>
        requires { AreSettled R.LEN table.items }
        ensures { result ≡ table.items }
    {
        Classes {
            table,
            of: PhantomData,
        }
    }

    /// The component that stands for the class of c, and the sign between the two in each tensor that the classes are
    /// made for. None where each of these tensors is zero at c.
    pub fn of(&self, c: Comp<R>) -> Option<(Comp<R>, Sign)>
        ensures { result ≡ class_at self.now c }
    {
        let entry = self.table[c.number() as usize];
        if entry.vanishes {
            None
        } else {
            Some((Comp::at(entry.first as usize), entry.sign))
        }
    }
}
