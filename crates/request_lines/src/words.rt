//! The words of a line, read one by one.

ghost use Rattle.std.specs.Prelude.{◌≤◌, IfOk, length};
ghost use Rattle.request_lines.specs.Parts.{WordEnds, ReadsWeights, ReadsLastWeights, ReadsGroupThen, ReadsLastGroup};
ghost use Rattle.request_lines.specs.Parts.{ReadsJahnThen, ReadsLastList};

use crate::lists::scan_list;
use crate::{Named, Span};
use group_symbol::read_group;
use jahn_grammar::scan_jahn;
use tensor_defs::Weights;
use text_defs::{Fault, Format};

/// The place of the first separator from a place on, or the length of the line.
pub(crate) fn word_end(line: &[u8], start: usize, separator: u8) -> usize
    requires { start ≤ length line.now }
    ensures { WordEnds separator line.now start result }
{
    let mut end = start;
    while end < line.len() && line[end] != separator {
        end += 1;
    }
    end
}

/// The group symbol that the word at a place spells, with a space behind it, and the place behind that.
pub(crate) fn group_then(line: &[u8], start: usize) -> Result<(Named, usize), Fault>
    requires { start ≤ length line.now }
    ensures reads { ReadsGroupThen line.now start result }
    ensures within { IfOk result (λ x. x.1 ≤ length line.now) }
{
    let end = word_end(line, start, b' ');
    match read_group(&line[start..end]) {
        Ok(tree) if end < line.len() => Ok((Named { tree, start }, end + 1)),
        Ok(_) => Err(Fault { place: end }),
        Err(fault) => Err(Fault {
            place: start + fault.place,
        }),
    }
}

/// The group symbol that the last word of the line spells.
pub(crate) fn last_group(line: &[u8], start: usize) -> Result<Named, Fault>
    requires { start ≤ length line.now }
    ensures { ReadsLastGroup line.now start result }
{
    let end = word_end(line, start, b' ');
    match read_group(&line[start..end]) {
        Ok(tree) if end == line.len() => Ok(Named { tree, start }),
        Ok(_) => Err(Fault { place: end }),
        Err(fault) => Err(Fault {
            place: start + fault.place,
        }),
    }
}

/// The word at a place, which spells a Jahn symbol and has a space behind it, and the place behind that.
pub(crate) fn jahn_then(line: &[u8], start: usize) -> Result<(Span, usize), Fault>
    requires fits { start ≤ length line.now }
    requires short { length line.now ≤ 4000 }
    ensures reads { ReadsJahnThen line.now start result }
    ensures within { IfOk result (λ x. x.1 ≤ length line.now) }
{
    let end = word_end(line, start, b' ');
    match scan_jahn(&line[start..end]) {
        Ok(_) if end < line.len() => Ok((Span { start, end }, end + 1)),
        Ok(_) => Err(Fault { place: end }),
        Err(fault) => Err(Fault {
            place: start + fault.place,
        }),
    }
}

/// The last word of the line, which spells a list of Jahn symbols: one in format 1, one to eight in format 2.
pub(crate) fn last_list(format: Format, line: &[u8], start: usize) -> Result<Span, Fault>
    requires fits { start ≤ length line.now }
    requires short { length line.now ≤ 4000 }
    ensures { ReadsLastList format line.now start result }
{
    let end = word_end(line, start, b' ');
    match scan_list(format, &line[start..end]) {
        Ok(()) if end == line.len() => Ok(Span { start, end }),
        Ok(()) => Err(Fault { place: end }),
        Err(fault) => Err(Fault {
            place: start + fault.place,
        }),
    }
}

/// The weights that a word says: `c` for none, `s` for those of shear.
fn read_weights(word: &[u8]) -> Result<Weights, Fault>
    ensures { ReadsWeights word.now result }
{
    if word.len() < 1 {
        return Err(Fault { place: 0 });
    }
    if word[0] != b'c' && word[0] != b's' {
        return Err(Fault { place: 0 });
    }
    if word.len() > 1 {
        return Err(Fault { place: 1 });
    }
    if word[0] == b'c' {
        Ok(Weights::Plain)
    } else {
        Ok(Weights::Shear)
    }
}

/// The weights that the last word of the line says.
pub(crate) fn last_weights(line: &[u8], start: usize) -> Result<Weights, Fault>
    requires { start ≤ length line.now }
    ensures { ReadsLastWeights line.now start result }
{
    let end = word_end(line, start, b' ');
    match read_weights(&line[start..end]) {
        Ok(weights) if end == line.len() => Ok(weights),
        Ok(_) => Err(Fault { place: end }),
        Err(fault) => Err(Fault {
            place: start + fault.place,
        }),
    }
}
