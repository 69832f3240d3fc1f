//! Searching a part of the texts that name a symbol for a word.
ghost use Rattle.std.specs.Prelude.{◌≡◌, ◌<◌, IfOk, SomeIff};
ghost use Rattle.tensor_defs.specs.Symbols.{IsGroupSymbol};
ghost use Rattle.group_symbol.specs.Readings.{symbol_of};
ghost use Rattle.dialects.specs.LongTexts.{form_at, IsFormText};
ghost use Rattle.dialects.specs.Naming.{IsDialectText};
ghost use Rattle.dialects.specs.Searches.{Searched, IsThis, IsPatternText, IsSettingText, Below};

use crate::forms::form_at;
use crate::long_texts::long_text;
use group_symbol::{Fault, NoMemory, Parent, Setting, SymbolTree, common_front};
use magnetic_groups::GroupFault;
use std::alloc::Global;

/// The symbol where its text is the word, or else how many bytes the two have in common.
pub(crate) fn compared(tree: SymbolTree, text: &[u8], word: &[u8]) -> Result<SymbolTree, Fault>
    requires { IsDialectText text.now }
    ensures { Searched (IsThis text.now tree) word.now result }
{
    let place = common_front(text, word);
    if place == text.len() && place == word.len() {
        Ok(tree)
    } else {
        Err(Fault { place })
    }
}

/// The symbol of the parent with the long form at a place.
fn symbol_with(place: usize, setting: Setting, primes: u8, grey: bool) -> Option<SymbolTree>
    requires { place < 8 }
    ensures { let t = symbol_of (form_at place).parent primes grey setting in SomeIff result (IsGroupSymbol t) t }
{
    let parent = Parent::from_number(form_at(place).parent)?;
    SymbolTree::new(parent, primes, grey, setting)
}

/// The symbol with these primes, grey or not, whose long text is the word.
fn read_pattern(
    alloc: Global,
    place: usize,
    setting: Setting,
    primes: u8,
    grey: bool,
    word: &[u8],
) -> Result<Result<SymbolTree, Fault>, NoMemory>
    requires { place < 8 }
    ensures { IfOk result (Searched (IsPatternText place setting primes grey) word.now) }
{
    let Some(tree) = symbol_with(place, setting, primes, grey) else {
        return Ok(Err(Fault { place: 0 }));
    };
    match long_text(alloc, place, &tree) {
        Ok(text) => Ok(compared(tree, text.as_slice(), word)),
        Err(GroupFault::Primes) => Ok(Err(Fault { place: 0 })),
        Err(GroupFault::NoMemory) => Err(NoMemory),
    }
}

/// The symbol in a setting whose long text is the word: the grey one, or one with any pattern of primes.
fn read_in_setting(
    alloc: Global,
    place: usize,
    setting: Setting,
    word: &[u8],
) -> Result<Result<SymbolTree, Fault>, NoMemory>
    requires { place < 8 }
    ensures { IfOk result (Searched (IsSettingText place setting) word.now) }
{
    let mut furthest = match read_pattern(alloc, place, setting, 0, true, word)? {
        Ok(tree) => return Ok(Ok(tree)),
        Err(fault) => fault.place,
    };
    for primes in 0..16u8 {
        match read_pattern(alloc, place, setting, primes, false, word)? {
            Ok(tree) => return Ok(Ok(tree)),
            Err(fault) => furthest = furthest.max(fault.place),
        }
    }
    Ok(Err(Fault { place: furthest }))
}

/// The symbol of the parent with the long form at a place whose long text is the word.
fn read_form(
    alloc: Global,
    place: usize,
    word: &[u8],
) -> Result<Result<SymbolTree, Fault>, NoMemory>
    requires { place < 8 }
    ensures { IfOk result (Searched (IsFormText place) word.now) }
{
    let settings = [
        Setting::Default,
        Setting::X,
        Setting::Z,
        Setting::XY,
        Setting::D,
        Setting::P,
    ];
    let mut furthest = 0usize;
    for setting in &settings {
        match read_in_setting(alloc, place, *setting, word)? {
            Ok(tree) => return Ok(Ok(tree)),
            Err(fault) => furthest = furthest.max(fault.place),
        }
    }
    Ok(Err(Fault { place: furthest }))
}

/// The symbol of a parent with a long form whose long text is the word.
pub(crate) fn read_long(alloc: Global, word: &[u8]) -> Result<Result<SymbolTree, Fault>, NoMemory>
    ensures { IfOk result (Searched (Below IsFormText 8) word.now) }
{
    let mut furthest = 0usize;
    for place in 0..8 {
        match read_form(alloc, place, word)? {
            Ok(tree) => return Ok(Ok(tree)),
            Err(fault) => furthest = furthest.max(fault.place),
        }
    }
    Ok(Err(Fault { place: furthest }))
}
