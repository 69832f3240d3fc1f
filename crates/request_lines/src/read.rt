//! Reading a whole line.

ghost use Rattle.std.specs.Prelude.{◌≤◌, length, MatchBool};
ghost use Rattle.text_defs.specs.declared.Format.TheVariants.{Two};
ghost use Rattle.text_defs.specs.Requests.{longest_line};
ghost use Rattle.request_lines.specs.Parts.{ReadsGroupList, ReadsTwoGroups, ReadsTwoGroupsList, ReadsGroupJahnWeights};
ghost use Rattle.request_lines.specs.Parts.{IsCommented};
ghost use Rattle.request_lines.specs.Readings.{ReadsRequest, ReadsWorded};

use crate::keywords::{Keyword, read_keyword};
use crate::words::{group_then, jahn_then, last_group, last_list, last_weights};
use crate::{Named, Request, Span};
use tensor_defs::Weights;
use text_defs::{Fault, Format};

/// A group symbol and a list of Jahn symbols, to the end of the line.
fn group_and_list(format: Format, line: &[u8], start: usize) -> Result<(Named, Span), Fault>
    requires fits { start ≤ length line.now }
    requires short { length line.now ≤ 4000 }
    ensures { ReadsGroupList format line.now start result }
{
    let (g, next) = group_then(line, start)?;
    let j = last_list(format, line, next)?;
    Ok((g, j))
}

/// A group symbol, a Jahn symbol and weights, to the end of the line.
fn group_jahn_and_weights(line: &[u8], start: usize) -> Result<(Named, Span, Weights), Fault>
    requires fits { start ≤ length line.now }
    requires short { length line.now ≤ 4000 }
    ensures { ReadsGroupJahnWeights line.now start result }
{
    let (g, second) = group_then(line, start)?;
    let (j, third) = jahn_then(line, second)?;
    let weights = last_weights(line, third)?;
    Ok((g, j, weights))
}

/// Two group symbols, to the end of the line.
fn two_groups(line: &[u8], start: usize) -> Result<(Named, Named), Fault>
    requires { start ≤ length line.now }
    ensures { ReadsTwoGroups line.now start result }
{
    let (g, next) = group_then(line, start)?;
    let f = last_group(line, next)?;
    Ok((g, f))
}

/// Two group symbols and a list of Jahn symbols, to the end of the line.
fn two_groups_and_list(
    format: Format,
    line: &[u8],
    start: usize,
) -> Result<(Named, Named, Span), Fault>
    requires fits { start ≤ length line.now }
    requires short { length line.now ≤ 4000 }
    ensures { ReadsTwoGroupsList format line.now start result }
{
    let (g, second) = group_then(line, start)?;
    let (f, third) = group_then(line, second)?;
    let j = last_list(format, line, third)?;
    Ok((g, f, j))
}

/// Whether the line begins as a comment of its format does.
fn is_commented(format: Format, line: &[u8]) -> bool
    ensures { MatchBool result (IsCommented format line.now) (IsCommented format line.now → ⊥) }
{
    match format {
        Format::One => false,
        Format::Two => line.len() > 0 && line[0] == b'#',
    }
}

/// The comment that the whole line is.
fn read_comment(line: &[u8]) -> Result<Request, Fault>
    requires { IsCommented Two line.now }
    ensures { ReadsRequest Two line.now result }
{
    let mut at = 1;
    while at < line.len() {
        if line[at] == b'\n' {
            return Err(Fault { place: at });
        }
        at += 1;
    }
    Ok(Request::Comment)
}

/// The request with a keyword that the whole line spells.
fn read_worded(format: Format, line: &[u8]) -> Result<Request, Fault>
    requires { length line.now ≤ 4000 }
    ensures { ReadsWorded format line.now result }
{
    let (keyword, start) = read_keyword(line)?;
    match keyword {
        Keyword::Form => {
            let (g, j) = group_and_list(format, line, start)?;
            Ok(Request::Form { g, j })
        }
        Keyword::Group => {
            let g = last_group(line, start)?;
            Ok(Request::Group { g })
        }
        Keyword::Voigt => {
            let (g, j, weights) = group_jahn_and_weights(line, start)?;
            Ok(Request::Voigt { g, j, weights })
        }
        Keyword::States => {
            let (g, f) = two_groups(line, start)?;
            Ok(Request::States { g, f })
        }
        Keyword::Pairs => {
            let (g, f) = two_groups(line, start)?;
            Ok(Request::Pairs { g, f })
        }
        Keyword::Differ => {
            let (g, f, j) = two_groups_and_list(format, line, start)?;
            Ok(Request::Differ { g, f, j })
        }
        Keyword::Same => {
            let (g, h, j) = two_groups_and_list(Format::One, line, start)?;
            Ok(Request::Same { g, h, j })
        }
    }
}

/// The request of a format that the whole line spells, in time linear in the line's length. `Err` where it spells none:
/// the length of the longest front of the line that begins some request of the format.
pub fn read_request(format: Format, line: &[u8]) -> Result<Request, Fault>
    requires { length line.now ≤ longest_line format }
    ensures { ReadsRequest format line.now result }
{
    if is_commented(format, line) {
        read_comment(line)
    } else {
        read_worded(format, line)
    }
}
