//! Names of the crystal classes after Schoenflies.
ghost use Rattle.std.specs.Prelude.{◌≡◌, ◌≤◌};
ghost use Rattle.dialects.specs.ClassNames.{class_name, plain_symbol, IsReadName};
ghost use Rattle.dialects.specs.Searches.{Searched};

use crate::search::compared;
use group_symbol::{Fault, Parent, Setting, SymbolTree};

/// The names, the first of the parent 1.
#[rattlefmt::skip]
static NAMES: [&[u8]; 42] = [
    b"C1", b"Ci", b"C2", b"Cs", b"C2h", b"D2", b"C2v", b"C2v", b"C2v", b"D2h",
    b"C4", b"S4", b"C4h", b"D4", b"C4v", b"D2d", b"D2d", b"D4h",
    b"C3", b"C3i", b"D3", b"D3", b"D3", b"C3v", b"C3v", b"C3v", b"D3d", b"D3d", b"D3d",
    b"C6", b"C3h", b"C6h", b"D6", b"C6v", b"D3h", b"D3h", b"D6h",
    b"T", b"Th", b"O", b"Td", b"Oh",
];

/// The name of the class of a parent, by its number.
pub(crate) fn class_name(number: u8) -> &'static [u8]
    requires first { 1 ≤ number }
    requires last { number ≤ 42 }
    ensures { result.now ≡ class_name number }
{
    NAMES[number as usize - 1]
}

/// The symbol of a parent without primes, not grey, in the default setting.
fn plain_symbol(number: u8) -> SymbolTree
    requires first { 1 ≤ number }
    requires last { number ≤ 42 }
    ensures { result ≡ plain_symbol number }
{
    let Some(parent) = Parent::from_number(number) else {
        unreachable!()
    };
    let Some(tree) = SymbolTree::new(parent, 0, false, Setting::Default) else {
        unreachable!()
    };
    tree
}

/// The symbol that a name is read as: that of the first parent with the name.
pub(crate) fn read_name(word: &[u8]) -> Result<SymbolTree, Fault>
    ensures { Searched IsReadName word.now result }
{
    let mut place = match compared(plain_symbol(20), b"S6", word) {
        Ok(tree) => return Ok(tree),
        Err(fault) => fault.place,
    };
    for number in 1..43u8 {
        match compared(plain_symbol(number), class_name(number), word) {
            Ok(tree) => return Ok(tree),
            Err(fault) => place = place.max(fault.place),
        }
    }
    Err(Fault { place })
}
