//! Jahn symbols compiled to shapes.
ghost use Rattle.std.specs.Prelude.{◌≡◌, ◌≤◌, IfOk};
ghost use Rattle.tensor_defs.specs.Jahn.{rank};
ghost use Rattle.jahn_grammar.specs.Symbols.{symbol_of};
ghost use Rattle.tensor_rank.specs.AnyShapes.{IsAnyShapeOf};

use crate::brackets::push_body;
use crate::flags::Flags;
use crate::ranks::{R0, R1, R2, R3, R4, R5, R6};
use crate::shapes::Shape;
use jahn_grammar::Jahn;
use sign_moves::NoMemory;
use std::alloc::Global;

/// A shape of some rank.
#[derive(Drop)]
pub enum AnyShape {
    Zero(Shape<R0>),
    One(Shape<R1>),
    Two(Shape<R2>),
    Three(Shape<R3>),
    Four(Shape<R4>),
    Five(Shape<R5>),
    Six(Shape<R6>),
}

/// The shape of a symbol of rank 6 at most, in the variant of its rank.
pub fn compile(alloc: Global, jahn: &Jahn) -> Result<AnyShape, NoMemory>
    requires { rank (symbol_of jahn.now) ≤ 6 }
    ensures { IfOk result (λ s. IsAnyShapeOf (symbol_of jahn.now) s) }
{
    let mut exchanges = Vec::new(alloc);
    push_body(&mut exchanges, &jahn.body)?;
    let flags = Flags {
        axial: jahn.axial,
        magnetic: jahn.magnetic,
    };
    Ok(match jahn.rank() {
        0 => AnyShape::Zero(Shape::new(flags, exchanges)),
        1 => AnyShape::One(Shape::new(flags, exchanges)),
        2 => AnyShape::Two(Shape::new(flags, exchanges)),
        3 => AnyShape::Three(Shape::new(flags, exchanges)),
        4 => AnyShape::Four(Shape::new(flags, exchanges)),
        5 => AnyShape::Five(Shape::new(flags, exchanges)),
        _ => AnyShape::Six(Shape::new(flags, exchanges)),
    })
}

/// Runs code at the typed rank of a shape.
#[macro_export]
macro_rules! at_rank {
    ($any:expr, $shape:ident => $body:expr) => {
        match $any {
            $crate::AnyShape::Zero($shape) => $body,
            $crate::AnyShape::One($shape) => $body,
            $crate::AnyShape::Two($shape) => $body,
            $crate::AnyShape::Three($shape) => $body,
            $crate::AnyShape::Four($shape) => $body,
            $crate::AnyShape::Five($shape) => $body,
            $crate::AnyShape::Six($shape) => $body,
        }
    };
}
