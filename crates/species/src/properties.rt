//! The properties that tell domain states apart, and their symbols.
ghost use Rattle.std.specs.Prelude.{◌≡◌, ◌≤◌, IfOk};
ghost use Rattle.tensor_defs.specs.Jahn.{rank};
ghost use Rattle.text_defs.specs.JahnTexts.{jahn_text};
ghost use Rattle.jahn_grammar.specs.Symbols.{symbol_of};
ghost use Rattle.species.specs.Species.{property_symbol};

use jahn_grammar::{Jahn, JahnFault, NoMemory, read_jahn, written_is_spelled};
use std::alloc::Global;
use text_laws::one_jahn_symbol;

/// A property whose tensor may differ from one domain state to another.
#[derive(Clone, Copy, Debug, PartialEq, Eq, Drop)]
pub enum Property {
    /// The polarisation, `V`.
    Electric,
    /// The strain, `[V2]`.
    Elastic,
    /// The magnetisation, `aeV`.
    Magnetic,
}

/// The text of the symbol of a property.
fn symbol_text(property: Property) -> &'static [u8]
    ensures { result.now ≡ jahn_text (property_symbol property) }
{
    match property {
        Property::Electric => b"V",
        Property::Elastic => b"[V2]",
        Property::Magnetic => b"aeV",
    }
}

/// The tree of the symbol of a property.
pub(crate) fn symbol_tree(alloc: Global, property: Property) -> Result<Jahn, NoMemory>
    ensures symbol { IfOk result (λ j. symbol_of j ≡ property_symbol property) }
    ensures rank { IfOk result (λ j. rank (symbol_of j) ≤ 6) }
{
    written_is_spelled();
    one_jahn_symbol();
    match read_jahn(alloc, symbol_text(property)) {
        Ok(jahn) => Ok(jahn),
        Err(JahnFault::Syntax { place: _ }) => unreachable!(),
        Err(JahnFault::Rank) => unreachable!(),
        Err(JahnFault::NoMemory) => Err(NoMemory),
    }
}
