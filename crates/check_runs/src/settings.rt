//! Words that give a number to a component.
ghost use Rattle.std.specs.Prelude.{MatchBool};
ghost use Rattle.number_words.specs.Runs.{IsAt};
ghost use Rattle.check_runs.specs.Readers.{ReadsComponent, TellsAxis};
ghost use Rattle.check_runs.specs.Stops.{ReadsSetting};

use number_words::read_number;
use root3_num::Root3;
use tensor_rank::Rank;
use text_defs::Fault;

/// A component, by its number in index order, and the number that a word gives to it.
#[derive(Clone, Copy)]
pub(crate) struct Setting {
    pub component: usize,
    pub number: Root3,
}

/// Whether the word has the byte at a place.
fn has_at(word: &[u8], place: usize, byte: u8) -> bool
    ensures { MatchBool result (IsAt word.now place byte) (IsAt word.now place byte → ⊥) }
{
    place < word.len() && word[place] == byte
}

/// The place, from 0, of the axis whose digit the word has at a place.
fn axis_at(word: &[u8], place: usize) -> Option<usize>
    ensures { TellsAxis word.now place result }
{
    if has_at(word, place, b'1') {
        Some(0)
    } else if has_at(word, place, b'2') {
        Some(1)
    } else if has_at(word, place, b'3') {
        Some(2)
    } else {
        None
    }
}

/// The component that the word begins with: `T`, its index digits and `=`.
fn read_component<R: Rank>(word: &[u8]) -> Result<usize, Fault>
    ensures { ReadsComponent R.R word.now result }
{
    if !has_at(word, 0, b'T') {
        return Err(Fault { place: 0 });
    }
    let mut number = 0usize;
    for place in 0..R::R {
        match axis_at(word, 1 + place) {
            Some(axis) => number = 3 * number + axis,
            None => return Err(Fault { place: 1 + place }),
        }
    }
    if !has_at(word, 1 + R::R, b'=') {
        return Err(Fault { place: 1 + R::R });
    }
    Ok(number)
}

/// The component and the number that the whole word gives to it, or where the word goes wrong.
pub(crate) fn read_setting<R: Rank>(word: &[u8]) -> Result<Setting, Fault>
    ensures { ReadsSetting R.R word.now result }
{
    let component = match read_component::<R>(word) {
        Ok(component) => component,
        Err(fault) => return Err(fault),
    };
    let start = R::R + 2;
    match read_number(&word[start..]) {
        Ok(number) => Ok(Setting { component, number }),
        Err(fault) => Err(Fault {
            place: start + fault.place,
        }),
    }
}
