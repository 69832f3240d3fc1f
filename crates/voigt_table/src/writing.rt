//! The lines of a Voigt table.
ghost use Rattle.std.specs.Prelude.{◌≡◌, ◌∷◌, [], ◌++◌, ◌<◌, ◌≤◌, OnErr, OnOk, codes, length, take, vec_capacity};
ghost use Rattle.std.specs.List.{flat_map};
ghost use Rattle.tensor_defs.specs.Lists.{Each};
ghost use Rattle.tensor_defs.specs.Voigt.{entries};
ghost use Rattle.text_defs.specs.AnswerTexts.{entry_line, entry_name, rational, weights_word};
ghost use Rattle.text_defs.specs.NumberTexts.{sum_text, term_text};
ghost use Rattle.form_lines.specs.Texts.{IsLonger, placed};
ghost use Rattle.voigt_table.specs.Blocks.{entry_at, entry_count, numbers_of};
ghost use Rattle.voigt_table.specs.Tables.{voigt_of};
ghost use Rattle.voigt_table.specs.Texts.{AreFreeMarks, entry_text, free_name, named_entries};

use crate::entry::Entry;
use crate::memory::NoMemory;
use crate::tables::VoigtTable;
use exact_frac::append;
use form_lines::{append_to, push_factor, unit_sign, write_term};
use reduced_form::Term;
use smallvec::SmallVec;
use std::alloc::Global;
use tensor_defs::{Sign, Weights};

/// The letter of an entry's name.
fn letter(weights: Weights) -> u8
    ensures { weights_word weights ≡ result ∷ [] }
{
    match weights {
        Weights::Plain => b'c',
        Weights::Shear => b's',
    }
}

/// The name of an entry, c or s and its block numbers, and how many of the bytes are the name.
fn name_bytes(weights: Weights, entry: &Entry) -> ([u8; 3], usize)
    ensures name { take result.1 result.0 ≡ entry_name weights (numbers_of entry.now) }
    ensures short { result.1 ≤ 3 }
{
    let letter = letter(weights);
    let last = 48 + entry.last;
    match entry.first {
        Some(first) => ([letter, 48 + first, last], 3),
        None => ([letter, last, 0], 2),
    }
}

/// The line of a free entry, and how many of the bytes are the line.
fn free_bytes(weights: Weights, entry: &Entry) -> ([u8; 9], usize)
    ensures line { take result.1 result.0 ≡ entry_name weights (numbers_of entry.now) ++ 32 ∷ (codes "free" ++ 10 ∷ []) }
    ensures short { result.1 ≤ 9 }
{
    let letter = letter(weights);
    let last = 48 + entry.last;
    match entry.first {
        Some(first) => (
            [
                letter,
                48 + first,
                last,
                b' ',
                b'f',
                b'r',
                b'e',
                b'e',
                b'\n',
            ],
            9,
        ),
        None => ([letter, last, b' ', b'f', b'r', b'e', b'e', b'\n', 0], 8),
    }
}

/// The line of an entry that is 0, and how many of the bytes are the line.
fn zero_bytes(weights: Weights, entry: &Entry) -> ([u8; 8], usize)
    ensures line { take result.1 result.0 ≡ entry_name weights (numbers_of entry.now) ++ 32 ∷ 61 ∷ 32 ∷ 48 ∷ 10 ∷ [] }
    ensures short { result.1 ≤ 8 }
{
    let letter = letter(weights);
    let last = 48 + entry.last;
    match entry.first {
        Some(first) => ([letter, 48 + first, last, b' ', b'=', b' ', b'0', b'\n'], 8),
        None => ([letter, last, b' ', b'=', b' ', b'0', b'\n', 0], 7),
    }
}

/// Appends the name of an entry.
fn write_name(weights: Weights, entry: &Entry, out: &mut Vec<u8>) -> Result<(), NoMemory>
    ensures ok { OnOk result (out.new.items ≡ out.old.items ++ entry_name weights (numbers_of entry.now)) }
    ensures longer { IsLonger out.old.items out.new.items }
    ensures capacity { vec_capacity out.old ≤ vec_capacity out.new }
{
    let (name, len) = name_bytes(weights, entry);
    append_to(out, &name[..len])?;
    Ok(())
}

/// The text of a term: its factor and the name of its free entry.
fn term_of(alloc: Global, table: &VoigtTable, term: &Term) -> SmallVec<u8, 64>
    requires { term.now.free < length table.now.free }
    ensures { result.items ≡ term_text (rational term.now.factor) (free_name table.now term.now.free) }
{
    let mut text = SmallVec::new(alloc);
    push_factor(&mut text, alloc, &term.factor);
    let entry = table.free_entry(term.free as usize);
    let (name, len) = name_bytes(table.weights, &entry);
    append(&mut text, &name[..len]);
    text
}

/// Appends a term of a table at a place of a sum.
fn write_term_of(
    table: &VoigtTable,
    term: &Term,
    place: usize,
    out: &mut Vec<u8>,
) -> Result<(), NoMemory>
    requires { term.now.free < length table.now.free }
    ensures ok { OnOk result (out.new.items ≡ out.old.items ++ placed place (entry_text table.now term.now)) }
    ensures longer { IsLonger out.old.items out.new.items }
    ensures capacity { vec_capacity out.old ≤ vec_capacity out.new }
{
    match unit_sign(&term.factor) {
        Some(Sign::Plus) => {
            let entry = table.free_entry(term.free as usize);
            let (name, len) = name_bytes(table.weights, &entry);
            write_term(&name[..len], place, out)?;
        }
        Some(Sign::Minus) => {
            append_to(out, b"-")?;
            write_name(table.weights, &table.free_entry(term.free as usize), out)?;
        }
        None => {
            let text = term_of(*table.free.allocator(), table, term);
            write_term(text.as_slice(), place, out)?;
        }
    }
    Ok(())
}

/// Appends the sum of a row: 0 where it has no term.
fn write_sum(table: &VoigtTable, row: &[Term], out: &mut Vec<u8>) -> Result<(), NoMemory>
    requires { Each (λ t. t.free < length table.now.free) row.now }
    ensures ok { OnOk result (out.new.items ≡ out.old.items ++ sum_text (named_entries table.now row.now)) }
    ensures longer { IsLonger out.old.items out.new.items }
    ensures capacity { vec_capacity out.old ≤ vec_capacity out.new }
{
    if row.is_empty() {
        append_to(out, b"0")?;
        return Ok(());
    }
    for place in 0..row.len() {
        write_term_of(table, &row[place], place, out)?;
    }
    Ok(())
}

/// For each number below 36 whether its entry is free.
fn free_marks(table: &VoigtTable) -> [bool; 36]
    ensures { AreFreeMarks table.now result }
{
    // a field that is read brings the invariant into the proof
    let _blocks = &table.blocks;
    let mut marks = [false; 36];
    for place in 0..table.free_count() {
        marks[table.free_number(place)] = true;
    }
    marks
}

/// Appends the line of the entry of a number.
fn write_line(
    table: &VoigtTable,
    marks: &[bool],
    number: usize,
    out: &mut Vec<u8>,
) -> Result<(), NoMemory>
    requires number { number < entry_count table.now.sizes }
    requires marks { AreFreeMarks table.now marks.now }
    ensures ok { OnOk result (out.new.items ≡ out.old.items ++ entry_line table.now.weights (voigt_of table.now) (entry_at table.now.sizes number)) }
    ensures longer { IsLonger out.old.items out.new.items }
    ensures capacity { vec_capacity out.old ≤ vec_capacity out.new }
{
    let weights = table.weights;
    let entry = table.entry(number);
    if marks[number] {
        let (line, len) = free_bytes(weights, &entry);
        append_to(out, &line[..len])?;
        return Ok(());
    }
    let row = table.row(number);
    if row.is_empty() {
        let (line, len) = zero_bytes(weights, &entry);
        append_to(out, &line[..len])?;
        return Ok(());
    }
    write_name(weights, &entry, out)?;
    append_to(out, b" = ")?;
    write_sum(table, row, out)?;
    append_to(out, b"\n")?;
    Ok(())
}

/// Appends the lines of all entries. After an error, lines may stand behind what was there.
fn write_lines(table: &VoigtTable, out: &mut Vec<u8>) -> Result<(), NoMemory>
    ensures ok { OnOk result (out.new.items ≡ out.old.items ++ flat_map (entry_line table.now.weights (voigt_of table.now)) (entries table.now.sizes)) }
    ensures longer { IsLonger out.old.items out.new.items }
    ensures capacity { vec_capacity out.old ≤ vec_capacity out.new }
{
    let marks = free_marks(table);
    for number in 0..table.blocks.entry_count() {
        write_line(table, &marks, number, out)?;
    }
    Ok(())
}

impl VoigtTable {
    /// Appends the lines of the entries, in their order. After `NoMemory` the list is as before.
    pub fn write_table(&self, out: &mut Vec<u8>) -> Result<(), NoMemory>
        ensures ok { OnOk result (out.new.items ≡ out.old.items ++ flat_map (entry_line self.now.weights (voigt_of self.now)) (entries self.now.sizes)) }
        ensures err { OnErr result (out.new.items ≡ out.old.items) }
        ensures capacity { vec_capacity out.old ≤ vec_capacity out.new }
    {
        let start = out.len();
        let written = write_lines(self, out);
        if written.is_err() {
            out.truncate(start);
        }
        written
    }
}
