//! Pieces of lines that both answers have. After `NoMemory` the list begins as before.
ghost use Rattle.std.specs.Prelude.{◌≡◌, ◌≤◌, ◌++◌, ◌∷◌, [], OnErr, OnOk, vec_capacity};
ghost use Rattle.std.specs.Fmt.{decimal};
ghost use Rattle.text_defs.specs.GroupTexts.{group_text};
ghost use Rattle.text_defs.specs.NumberTexts.{spaced};
ghost use Rattle.answer_writers.specs.Rows.{IsLonger};

use answer_writers::{NoMemory, append_to};
use group_symbol::{SymbolTree, write_group};
use itoa::Buffer;

/// Appends a number.
pub fn write_number(number: usize, out: &mut Vec<u8>) -> Result<(), NoMemory>
    ensures ok { OnOk result (out.new.items ≡ out.old.items ++ decimal number) }
    ensures longer { IsLonger out.old.items out.new.items }
    ensures capacity { vec_capacity out.old ≤ vec_capacity out.new }
{
    let mut buffer = Buffer::new();
    append_to(out, buffer.format(number).as_bytes())
}

/// Appends a word and a number, each behind a space.
pub fn write_count(word: &str, count: usize, out: &mut Vec<u8>) -> Result<(), NoMemory>
    ensures ok { OnOk result (out.new.items ≡ out.old.items ++ 32 ∷ spaced (word.now ∷ decimal count ∷ [])) }
    ensures longer { IsLonger out.old.items out.new.items }
    ensures capacity { vec_capacity out.old ≤ vec_capacity out.new }
{
    append_to(out, b" ")?;
    append_to(out, word.as_bytes())?;
    append_to(out, b" ")?;
    write_number(count, out)
}

/// Appends two symbols with one space between them.
fn write_groups(g: &SymbolTree, f: &SymbolTree, out: &mut Vec<u8>) -> Result<(), NoMemory>
    ensures ok { OnOk result (out.new.items ≡ out.old.items ++ spaced (group_text g.now ∷ group_text f.now ∷ [])) }
    ensures longer { IsLonger out.old.items out.new.items }
    ensures capacity { vec_capacity out.old ≤ vec_capacity out.new }
{
    write_group(g, out)?;
    append_to(out, b" ")?;
    write_group(f, out)?;
    Ok(())
}

/// Appends a word, two symbols, another word and a number, with one space between two.
pub fn write_front(
    word: &str,
    g: &SymbolTree,
    f: &SymbolTree,
    counted: &str,
    count: usize,
    out: &mut Vec<u8>,
) -> Result<(), NoMemory>
    ensures ok { OnOk result (out.new.items ≡ out.old.items ++ spaced (word.now ∷ group_text g.now ∷ group_text f.now ∷ counted.now ∷ decimal count ∷ [])) }
    ensures longer { IsLonger out.old.items out.new.items }
    ensures capacity { vec_capacity out.old ≤ vec_capacity out.new }
{
    append_to(out, word.as_bytes())?;
    append_to(out, b" ")?;
    write_groups(g, f, out)?;
    write_count(counted, count, out)
}
