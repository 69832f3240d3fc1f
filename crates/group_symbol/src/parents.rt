//! The parents: the 42 symbols without primes.
ghost use Rattle.std.specs.Prelude.{◌≡◌, ◌≤◌, SomeIff, length};
ghost use Rattle.group_symbol.specs.Tables.{operators_of};
ghost use Rattle.tensor_defs.specs.Symbols.{parent_text, parent_operators, operator_count, takes_setting, is_monoclinic, is_orthorhombic, is_turned_trigonal};
ghost use Rattle.text_defs.specs.GroupTexts.{ends_operator};

use std::marker::Model;
use tensor_defs::Direction::{self, X, XYZ, XmY, Y, Z};
use tensor_defs::OpKind::{self, Bar1, Bar3, Bar4, Bar6, Four, Mirror, Six, Three, Two};
use tensor_defs::Setting;

/// A parent, by its number from 1 to 42.
#[derive(Clone, Copy, Debug, PartialEq, Eq, Drop)]
pub struct Parent {
    pub(crate) number: u8,
}

impl Model for Parent {
    ghost use Rattle.std.specs.Prelude.{ℕ, ◌≤◌};

    ghost Value = { ℕ };

    ghost view = { λ p. p.number };

    ghost invariant = { λ p. (1 ≤ p.number) × (p.number ≤ 42) };

    ghost inverse = { λ n. record { number = n } };
}

impl Parent {
    /// The parent of this number; none outside 1 to 42.
    pub fn from_number(number: u8) -> Option<Parent>
        ensures { SomeIff result ((1 ≤ number) × (number ≤ 42)) number }
    {
        if number >= 1 && number <= 42 {
            Some(Parent { number })
        } else {
            None
        }
    }

    /// Its number, from 1 to 42.
    pub fn number(&self) -> u8
        ensures value { result ≡ self.now }
        ensures first { 1 ≤ result }
        ensures last { result ≤ 42 }
    {
        self.number
    }

    /// How many operators it has: none at 1, at most four.
    pub fn operators(&self) -> usize
        ensures count { result ≡ operator_count self.now }
        ensures few { result ≤ 4 }
    {
        self.row().1.len()
    }

    /// The text without primes.
    pub(crate) fn text(&self) -> &'static [u8]
        ensures value { result.now ≡ parent_text self.now }
        ensures short { length result.now ≤ 5 }
        ensures first { 1 ≤ self.now }
        ensures last { self.now ≤ 42 }
    {
        self.row().0
    }

    /// Its operators from left to right, with their directions in the default setting.
    pub(crate) fn operator_list(&self) -> &'static [(OpKind, Direction)]
        ensures value { operators_of result.now ≡ parent_operators self.now }
        ensures few { length result.now ≤ 4 }
    {
        self.row().1
    }

    /// Its row of the table.
    fn row(&self) -> &'static Row
        ensures text { result.now.0.now ≡ parent_text self.now }
        ensures operators { operators_of result.now.1.now ≡ parent_operators self.now }
        ensures first { 1 ≤ self.now }
        ensures last { self.now ≤ 42 }
    {
        &PARENTS[self.number as usize - 1]
    }

    /// Whether it takes the setting.
    pub fn takes(&self, setting: Setting) -> bool
        ensures { result ≡ takes_setting self.now setting }
    {
        match setting {
            Setting::Default => true,
            Setting::X | Setting::Z | Setting::XY => self.is_monoclinic(),
            Setting::D => self.is_orthorhombic(),
            Setting::P => self.is_turned_trigonal(),
        }
    }

    /// Whether it is 2, m or 2/m.
    pub fn is_monoclinic(&self) -> bool
        ensures { result ≡ is_monoclinic self.now }
    {
        self.number == 3 || self.number == 4 || self.number == 5
    }

    /// Whether it is 222, mm2, m2m, 2mm or mmm.
    pub fn is_orthorhombic(&self) -> bool
        ensures { result ≡ is_orthorhombic self.now }
    {
        6 <= self.number && self.number <= 10
    }

    /// Whether it is 3, -3, 32, 3m or -3m.
    pub fn is_turned_trigonal(&self) -> bool
        ensures { result ≡ is_turned_trigonal self.now }
    {
        let n = self.number;
        n == 19 || n == 20 || n == 21 || n == 24 || n == 27
    }
}

/// Whether a prime may follow the sign, in a parent's text where `previous` stands before it.
pub(crate) fn ends_operator(previous: u8, sign: u8) -> bool
    ensures { result ≡ ends_operator previous sign }
{
    match sign {
        b'2' | b'3' | b'4' | b'6' | b'm' => true,
        b'1' => previous == b'-',
        _ => false,
    }
}

/// A parent's text, and its operators from left to right.
type Row = (&'static [u8], &'static [(OpKind, Direction)]);

/// The parents, the first of number 1.
static PARENTS: [Row; 42] = [
    (b"1", &[]),
    (b"-1", &[(Bar1, Z)]),
    (b"2", &[(Two, Y)]),
    (b"m", &[(Mirror, Y)]),
    (b"2/m", &[(Two, Y), (Mirror, Y)]),
    (b"222", &[(Two, X), (Two, Y), (Two, Z)]),
    (b"mm2", &[(Mirror, X), (Mirror, Y), (Two, Z)]),
    (b"m2m", &[(Mirror, X), (Two, Y), (Mirror, Z)]),
    (b"2mm", &[(Two, X), (Mirror, Y), (Mirror, Z)]),
    (b"mmm", &[(Mirror, X), (Mirror, Y), (Mirror, Z)]),
    (b"4", &[(Four, Z)]),
    (b"-4", &[(Bar4, Z)]),
    (b"4/m", &[(Four, Z), (Mirror, Z)]),
    (b"422", &[(Four, Z), (Two, X), (Two, XmY)]),
    (b"4mm", &[(Four, Z), (Mirror, X), (Mirror, XmY)]),
    (b"-42m", &[(Bar4, Z), (Two, X), (Mirror, XmY)]),
    (b"-4m2", &[(Bar4, Z), (Mirror, X), (Two, XmY)]),
    (
        b"4/mmm",
        &[(Four, Z), (Mirror, Z), (Mirror, X), (Mirror, XmY)],
    ),
    (b"3", &[(Three, Z)]),
    (b"-3", &[(Bar3, Z)]),
    (b"32", &[(Three, Z), (Two, X)]),
    (b"321", &[(Three, Z), (Two, X)]),
    (b"312", &[(Three, Z), (Two, Y)]),
    (b"3m", &[(Three, Z), (Mirror, X)]),
    (b"3m1", &[(Three, Z), (Mirror, X)]),
    (b"31m", &[(Three, Z), (Mirror, Y)]),
    (b"-3m", &[(Bar3, Z), (Mirror, X)]),
    (b"-3m1", &[(Bar3, Z), (Mirror, X)]),
    (b"-31m", &[(Bar3, Z), (Mirror, Y)]),
    (b"6", &[(Six, Z)]),
    (b"-6", &[(Bar6, Z)]),
    (b"6/m", &[(Six, Z), (Mirror, Z)]),
    (b"622", &[(Six, Z), (Two, X), (Two, Y)]),
    (b"6mm", &[(Six, Z), (Mirror, X), (Mirror, Y)]),
    (b"-6m2", &[(Bar6, Z), (Mirror, X), (Two, Y)]),
    (b"-62m", &[(Bar6, Z), (Two, X), (Mirror, Y)]),
    (b"6/mmm", &[(Six, Z), (Mirror, Z), (Mirror, X), (Mirror, Y)]),
    (b"23", &[(Two, Z), (Three, XYZ)]),
    (b"m-3", &[(Mirror, Z), (Bar3, XYZ)]),
    (b"432", &[(Four, Z), (Three, XYZ), (Two, XmY)]),
    (b"-43m", &[(Bar4, Z), (Three, XYZ), (Mirror, XmY)]),
    (b"m-3m", &[(Mirror, Z), (Bar3, XYZ), (Mirror, XmY)]),
];
