//! A Jahn symbol of a typed rank, and the representatives of its components.
ghost use Rattle.std.specs.Prelude.{◌≡◌, ℕ, ◌+◌, ◌<◌, ◌≤◌, List, IfOk, length};
ghost use Rattle.tensor_defs.specs.Jahn.{HasSymmetry, JahnSymbol};
ghost use Rattle.sign_moves.specs.Classes.{first_at};
ghost use Rattle.sign_moves.specs.Firsts.{IsFirstTable};
ghost use Rattle.tensor_rank.specs.Carried.{Exchanges, TellsClass};
ghost use Rattle.tensor_rank.specs.Exchanges.{exchange_moves};
ghost use Rattle.tensor_rank.specs.Flags.{marks_of};
ghost use Rattle.tensor_rank.specs.Orders.{before_at, before_of};
ghost use Rattle.tensor_rank.specs.Shapes.{IsFirstBelow, IsShapeOf};
ghost use Rattle.tensor_rank.specs.Within.{AllWithin};

use crate::components::Comp;
use crate::exchanges::{Exchange, ExchangeMoves};
use crate::flags::Flags;
use crate::orders::Order;
use crate::ranks::Rank;
use sign_moves::{Entry, NoMemory, Sign, Tabled, class_table, first_table, times};
use std::alloc::Global;
use std::marker::{Model, PhantomData};

/// A Jahn symbol of rank R: its marks, and the exchanges of the blocks of its brackets.
#[derive(Drop)]
pub struct Shape<R: Rank> {
    flags: Flags,
    exchanges: Vec<Exchange>,
    of: PhantomData<R>,
}

impl<R: Rank> Model for Shape<R> {
    ghost use Rattle.tensor_rank.specs.ShapeValue.{ShapeValue};

    ghost Value = { ShapeValue };

    ghost use Rattle.tensor_rank.specs.Flags.{marks_of};
    ghost use Rattle.tensor_rank.specs.Within.{AllWithin};

    ghost view = { λ a. record { marks = marks_of a.flags; exchanges = a.exchanges.items } };

    ghost invariant = { λ a. AllWithin R.R a.exchanges.items };
}

/// The classes into which the exchanges of a symbol's blocks divide the components of its rank.
#[derive(Drop)]
pub struct ShapeClasses<'a, R: Rank> {
    shape: &'a Shape<R>,
    table: Vec<Entry>,
}

impl<'a, R: Rank> Model for ShapeClasses<'a, R> {
    ghost use Rattle.tensor_rank.specs.ShapeValue.{ShapeValue};

    ghost Value = { ShapeValue };

    ghost use Rattle.tensor_rank.specs.Within.{AllWithin};
    ghost use Rattle.sign_moves.specs.Classes.{IsClassTable};
    ghost use Rattle.tensor_rank.specs.Exchanges.{exchange_moves};

    ghost view = { λ a. a.shape.now };

    ghost invariant = { λ a. AllWithin R.R a.shape.now.exchanges × IsClassTable R.LEN (exchange_moves R.R a.shape.now.exchanges) a.table.items };
}

/// The earlier of two components, in an order, where the second one is of the same class.
fn earlier<R: Rank>(classes: &[Entry], order: &Order<R>, best: Comp<R>, number: usize) -> Comp<R>
    requires size { length classes.now ≡ R.LEN }
    requires number { number < R.LEN }
    requires first { IsFirstBelow R.LEN classes.now (before_at R.R order.now) (first_at classes.now best) best number }
    ensures { IsFirstBelow R.LEN classes.now (before_at R.R order.now) (first_at classes.now best) result (number + 1) }
{
    let d = Comp::at(number);
    if classes[number].first == classes[best.number() as usize].first && order.before(d, best) {
        d
    } else {
        best
    }
}

/// The first component, in an order, of the class of c, which begins with the component `root`.
fn first_of_class<R: Rank>(classes: &[Entry], order: &Order<R>, root: Comp<R>) -> Comp<R>
    requires size { length classes.now ≡ R.LEN }
    requires in_range { root < R.LEN }
    requires root { first_at classes.now root ≡ root }
    requires lower { (e : ℕ) → e < R.LEN → first_at classes.now e ≤ e }
    ensures { IsFirstBelow R.LEN classes.now (before_at R.R order.now) root result R.LEN }
{
    if order.is_index() {
        return root;
    }
    let mut best = root;
    for number in 0..R::LEN {
        best = earlier(classes, order, best, number);
    }
    best
}

impl<R: Rank> Shape<R> {
    /// The shape of a symbol with these marks and exchanges.
    pub(crate) fn new(flags: Flags, exchanges: Vec<Exchange>) -> Shape<R>
        requires { AllWithin R.R exchanges.items }
        ensures marks { result.marks ≡ marks_of flags }
        ensures exchanges { result.exchanges ≡ exchanges.items }
    {
        Shape {
            flags,
            exchanges,
            of: PhantomData,
        }
    }

    /// The marks of the symbol.
    pub fn flags(&self) -> Flags
        ensures { marks_of result ≡ self.now.marks }
    {
        self.flags
    }

    /// The exchanges of neighbouring blocks of the symbol's brackets, which generate those of each two.
    pub fn exchanges(&self) -> &[Exchange]
        ensures exchanges { result.now ≡ self.now.exchanges }
        ensures within { AllWithin R.R result.now }
    {
        &self.exchanges
    }

    /// The classes into which the exchanges divide the components.
    pub fn classes(&self, alloc: Global) -> Result<ShapeClasses<'_, R>, NoMemory>
        ensures { IfOk result (λ cs. cs ≡ self.now) }
    {
        let moves = ExchangeMoves::<R>::new(self.exchanges());
        let table = class_table(alloc, &Tabled::new(alloc, &moves)?)?;
        Ok(ShapeClasses { shape: self, table })
    }

    /// For each component the first one, in an order, to which exchanges of blocks carry it, with the sign between
    /// the two, and whether each component list with the symbol's index symmetry is zero there.
    pub fn firsts(&self, alloc: Global, order: &Order<R>) -> Result<Vec<Entry>, NoMemory>
        ensures within { AllWithin R.R self.now.exchanges }
        ensures firsts { IfOk result (λ table. IsFirstTable R.LEN (exchange_moves R.R self.now.exchanges) (before_at R.R order.now) table.items) }
    {
        let moves = ExchangeMoves::<R>::new(self.exchanges());
        first_table(alloc, &Tabled::new(alloc, &moves)?, order)
    }
}

impl<'a, R: Rank> ShapeClasses<'a, R> {
    /// The first component, in an order, to which exchanges of blocks carry c, and the sign between the two in every
    /// component list with the symbol's index symmetry. None exactly where each of these lists is zero at c.
    pub fn representative(&self, order: &Order<R>, c: Comp<R>) -> Option<(Comp<R>, Sign)>
        ensures { (j : JahnSymbol) → IsShapeOf j R.R self.now → TellsClass (Exchanges j) (HasSymmetry j) (before_of order.now) R.R c result }
    {
        let entry = self.table[c.number() as usize];
        if self.table[entry.first as usize].vanishes {
            return None;
        }
        let first = first_of_class(&self.table, order, Comp::at(entry.first as usize));
        let sign = times(entry.sign, self.table[first.number() as usize].sign);
        Some((first, sign))
    }
}
