//! Lists of operations.
ghost use Rattle.std.specs.Prelude.{◌≡◌, ◌++◌, ◌+◌, ◌<◌, ◌≤◌, ◌∷◌, [], codes, length, OnErr, OnOk, vec_capacity};
ghost use Rattle.std.specs.Fmt.{decimal};
ghost use Rattle.text_defs.specs.GroupTexts.{group_text};
ghost use Rattle.answer_writers.specs.Rows.{IsLonger};
ghost use Rattle.text_defs.specs.AnswerTexts.{elements_text, line_of, numbered, operation_text};
ghost use Rattle.text_defs.specs.NumberTexts.{spaced};

use crate::room::{NoMemory, append_to};
use crate::texts::{ending_of, matrix_text};
use group_symbol::{SymbolTree, write_group};
use itoa::Buffer;
use magnetic_groups::Group;
use op_matrix::Op;

/// A list of operations that is read by place.
pub trait OperationList {
    ghost use Rattle.std.specs.Prelude.{◌≡◌, ◌<◌, List, Some, length, slice_get};
    ghost use Rattle.tensor_defs.specs.Operation.{Operation};

    ghost listed: { Self → List Operation };

    /// How many they are.
    fn size(&self) -> usize
        ensures { result ≡ length (listed self.now) };

    /// The operation at a place, counted from 0.
    fn operation(&self, place: usize) -> Op
        requires { place < length (listed self.now) }
        ensures { slice_get (listed self.now) place ≡ Some result };
}

impl OperationList for Group {
    ghost listed = { λ g. g };

    fn size(&self) -> usize {
        self.len()
    }

    fn operation(&self, place: usize) -> Op {
        self.at(place)
    }
}

/// Appends a word and a number, each with a space behind it. After `NoMemory` the list begins as before.
fn write_label(word: &str, number: usize, out: &mut Vec<u8>) -> Result<(), NoMemory>
    ensures ok { OnOk result (out.new.items ≡ out.old.items ++ spaced (word.now ∷ decimal number ∷ [] ∷ [])) }
    ensures longer { IsLonger out.old.items out.new.items }
    ensures capacity { vec_capacity out.old ≤ vec_capacity out.new }
{
    let mut buffer = Buffer::new();
    append_to(out, word.as_bytes())?;
    append_to(out, b" ")?;
    append_to(out, buffer.format(number).as_bytes())?;
    append_to(out, b" ")
}

/// Appends the line of an operation with its number: a word, the number and the operation. After `NoMemory` the list
/// begins as before.
fn write_line(word: &str, number: usize, op: &Op, out: &mut Vec<u8>) -> Result<(), NoMemory>
    ensures ok { OnOk result (out.new.items ≡ out.old.items ++ line_of (word.now ∷ decimal number ∷ operation_text op.now ∷ [])) }
    ensures longer { IsLonger out.old.items out.new.items }
    ensures capacity { vec_capacity out.old ≤ vec_capacity out.new }
{
    write_label(word, number, out)?;
    append_to(out, matrix_text(op))?;
    append_to(out, ending_of(op.primed()))
}

/// Appends a line for each operation, numbered from 1. After `NoMemory` the list begins as before.
fn write_lines<L: OperationList>(word: &str, list: &L, out: &mut Vec<u8>) -> Result<(), NoMemory>
    ensures ok { OnOk result (out.new.items ≡ out.old.items ++ numbered word.now 1 (L.listed list.now)) }
    ensures longer { IsLonger out.old.items out.new.items }
    ensures capacity { vec_capacity out.old ≤ vec_capacity out.new }
{
    for place in 0..list.size() {
        write_line(word, place + 1, &list.operation(place), out)?;
    }
    Ok(())
}

/// Appends a line for each operation: a word, its number, counted from 1, and the operation. After
/// `NoMemory` the list is as before.
pub fn write_numbered<L: OperationList>(
    word: &str,
    list: &L,
    out: &mut Vec<u8>,
) -> Result<(), NoMemory>
    ensures ok { OnOk result (out.new.items ≡ out.old.items ++ numbered word.now 1 (L.listed list.now)) }
    ensures err { OnErr result (out.new.items ≡ out.old.items) }
    ensures capacity { vec_capacity out.old ≤ vec_capacity out.new }
{
    let start = out.len();
    let written = write_lines(word, list, out);
    if written.is_err() {
        out.truncate(start);
    }
    written
}

/// Appends the header of a list of elements.
fn write_header(tree: &SymbolTree, count: usize, out: &mut Vec<u8>) -> Result<(), NoMemory>
    ensures ok { OnOk result (out.new.items ≡ out.old.items ++ line_of (codes "group" ∷ group_text tree.now ∷ codes "order" ∷ decimal count ∷ [])) }
    ensures longer { IsLonger out.old.items out.new.items }
    ensures capacity { vec_capacity out.old ≤ vec_capacity out.new }
{
    append_to(out, b"group ")?;
    write_group(tree, out)?;
    append_to(out, b" order ")?;
    let mut buffer = Buffer::new();
    append_to(out, buffer.format(count).as_bytes())?;
    append_to(out, b"\n")?;
    Ok(())
}

/// Appends the header and a line for each element. After `NoMemory` the list begins as before.
fn write_listing(tree: &SymbolTree, group: &Group, out: &mut Vec<u8>) -> Result<(), NoMemory>
    ensures ok { OnOk result (out.new.items ≡ out.old.items ++ elements_text tree.now group.now) }
    ensures longer { IsLonger out.old.items out.new.items }
    ensures capacity { vec_capacity out.old ≤ vec_capacity out.new }
{
    write_header(tree, group.len(), out)?;
    write_lines("element", group, out)
}

/// Appends the answer to a request for the elements of a group: the header, and a line for each element in the order of
/// operations. After `NoMemory` the list is as before.
pub fn write_elements(tree: &SymbolTree, group: &Group, out: &mut Vec<u8>) -> Result<(), NoMemory>
    ensures ok { OnOk result (out.new.items ≡ out.old.items ++ elements_text tree.now group.now) }
    ensures err { OnErr result (out.new.items ≡ out.old.items) }
    ensures capacity { vec_capacity out.old ≤ vec_capacity out.new }
{
    let start = out.len();
    let written = write_listing(tree, group, out);
    if written.is_err() {
        out.truncate(start);
    }
    written
}
