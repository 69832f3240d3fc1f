//! The lines of an answer.
ghost use Rattle.std.specs.Prelude.{◌≡◌, ◌++◌, ◌∷◌, [], ℕ, OnOk, codes};
ghost use Rattle.std.specs.Fmt.{decimal};
ghost use Rattle.text_defs.specs.GroupTexts.{group_text};
ghost use Rattle.text_defs.specs.NumberTexts.{spaced};
ghost use Rattle.species.specs.Told.{AreWithin, HasDifferent};
ghost use Rattle.species_runs.specs.SpeciesTexts.{kind_text, property_line, property_text, species_header};

use answer_writers::{NoMemory, append_to};
use group_symbol::{SymbolTree, write_group};
use itoa::Buffer;
use species::{Kind, Property, Species};

/// The word of a property, and a space.
fn property_word(property: Property) -> &'static [u8]
    ensures { result.now ≡ property_text property ++ 32 ∷ [] }
{
    match property {
        Property::Electric => b"electric ",
        Property::Elastic => b"elastic ",
        Property::Magnetic => b"magnetic ",
    }
}

/// The word of a kind, and a space.
fn kind_word(kind: Kind) -> &'static [u8]
    ensures { result.now ≡ kind_text kind ++ 32 ∷ [] }
{
    match kind {
        Kind::Full => b"full ",
        Kind::Partial => b"partial ",
        Kind::Non => b"non ",
    }
}

/// Appends the line of a property. After `NoMemory` a part of it may stand behind what was there.
pub(crate) fn write_property(
    property: Property,
    species: &Species,
    out: &mut Vec<u8>,
) -> Result<(), NoMemory>
    requires { AreWithin species.now.classes }
    ensures { OnOk result ((n : ℕ) × HasDifferent species.now.classes n × (out.new.items ≡ out.old.items ++ property_line property species.now.kind n)) }
{
    let mut buffer = Buffer::new();
    let different = species.classes.different();
    append_to(out, property_word(property))?;
    append_to(out, kind_word(species.kind))?;
    append_to(out, buffer.format(different).as_bytes())?;
    append_to(out, b"\n")?;
    Ok(())
}

/// Appends the first word and the two symbols, with one space between two.
fn write_groups(g: &SymbolTree, f: &SymbolTree, out: &mut Vec<u8>) -> Result<(), NoMemory>
    ensures { OnOk result (out.new.items ≡ out.old.items ++ spaced (codes "species" ∷ group_text g.now ∷ group_text f.now ∷ [])) }
{
    append_to(out, b"species ")?;
    write_group(g, out)?;
    append_to(out, b" ")?;
    write_group(f, out)?;
    Ok(())
}

/// Appends the header. After `NoMemory` a part of it may stand behind what was there.
pub(crate) fn write_header(
    g: &SymbolTree,
    f: &SymbolTree,
    states: usize,
    out: &mut Vec<u8>,
) -> Result<(), NoMemory>
    ensures { OnOk result (out.new.items ≡ out.old.items ++ species_header g.now f.now states) }
{
    let mut buffer = Buffer::new();
    write_groups(g, f, out)?;
    append_to(out, b" states ")?;
    append_to(out, buffer.format(states).as_bytes())?;
    append_to(out, b"\n")?;
    Ok(())
}
