//! Lists of Jahn symbols, with one comma between two.

ghost use Rattle.std.specs.Prelude.{◌≡◌, ◌≤◌, length, List};
ghost use Rattle.text_defs.specs.Requests.{JahnAt};
ghost use Rattle.request_lines.specs.Words.{words_behind};
ghost use Rattle.request_lines.specs.Parts.{ReadsList};
ghost use Rattle.request_lines.specs.Readings.{IsList, TellsList, IsNthWord};

use crate::Span;
use crate::words::word_end;
use jahn_grammar::scan_jahn;
use text_defs::{Fault, Format};

/// How many words a list of a format may have behind its first one.
fn words_behind(format: Format) -> usize
    ensures { result ≡ words_behind format }
{
    match format {
        Format::One => 0,
        Format::Two => 7,
    }
}

/// Whether the whole text is a list of a format, or else where it goes wrong.
pub(crate) fn scan_list(format: Format, text: &[u8]) -> Result<(), Fault>
    requires { length text.now ≤ 4000 }
    ensures { ReadsList format text.now result }
{
    let mut start = 0;
    let mut left = words_behind(format);
    while left > 0 {
        let end = word_end(text, start, b',');
        match scan_jahn(&text[start..end]) {
            Ok(_) if end < text.len() => start = end + 1,
            Ok(_) => return Ok(()),
            Err(fault) => return Err(Fault {
                place: start + fault.place,
            }),
        }
        left -= 1;
    }
    match scan_jahn(&text[start..]) {
        Ok(_) => Ok(()),
        Err(fault) => Err(Fault {
            place: start + fault.place,
        }),
    }
}

/// The word with this number, counted from 1, of the list of Jahn symbols of a request that was read from the line.
/// `None` exactly at 0 or past the last word.
pub fn list_word(line: &[u8], list: Span, number: usize) -> Option<Span>
    requires { IsList line.now list }
    ensures { (js : List JahnAt) → TellsList line.now list js → IsNthWord line.now js number result }
{
    if number == 0 {
        return None;
    }
    let mut start = list.start;
    let mut end = word_end(line, start, b',');
    for _place in 1..number {
        if end == line.len() {
            return None;
        }
        start = end + 1;
        end = word_end(line, start, b',');
    }
    Some(Span { start, end })
}
