//! A group symbol, taken apart.
ghost use Rattle.std.specs.Prelude.{◌≡◌, SomeIff};
ghost use Rattle.group_symbol.specs.Readings.{symbol_of};
ghost use Rattle.tensor_defs.specs.Symbols.{IsGroupSymbol};
ghost use Rattle.text_defs.specs.GroupTexts.{grey_one};

use crate::parents::Parent;
use std::marker::Model;
use tensor_defs::Setting;

/// A symbol: its parent, a bit for each operator that is primed, the least bit for the first, whether it
/// is grey, and its setting.
#[derive(Clone, Copy, Debug, PartialEq, Eq, Drop)]
pub struct SymbolTree {
    pub(crate) parent: Parent,
    pub(crate) primes: u8,
    pub(crate) grey: bool,
    pub(crate) setting: Setting,
}

impl Model for SymbolTree {
    ghost use Rattle.tensor_defs.specs.Symbols.{GroupSymbol, IsGroupSymbol};

    ghost Value = { GroupSymbol };

    ghost view = { λ t. record { parent = t.parent; primes = t.primes; grey = t.grey; setting = t.setting } };

    ghost invariant = { λ t. IsGroupSymbol (record { parent = t.parent; primes = t.primes; grey = t.grey; setting = t.setting }) };

    ghost inverse = { λ s. record { parent = s.parent; primes = s.primes; grey = s.grey; setting = s.setting } };
}

impl SymbolTree {
    /// The symbol of these parts. None where the parent doesn't take the setting, a bit is set past the
    /// parent's operators, or the symbol is grey and has primes.
    pub fn new(parent: Parent, primes: u8, grey: bool, setting: Setting) -> Option<SymbolTree>
        ensures { let t = symbol_of parent primes grey setting in SomeIff result (IsGroupSymbol t) t }
    {
        if primes >= 1 << parent.operators() || !parent.takes(setting) {
            return None;
        }
        if grey && primes != 0 {
            return None;
        }
        Some(SymbolTree {
            parent,
            primes,
            grey,
            setting,
        })
    }

    /// The grey symbol of the parent 1.
    pub(crate) fn grey_one() -> SymbolTree
        ensures { result ≡ grey_one }
    {
        SymbolTree {
            parent: Parent { number: 1 },
            primes: 0,
            grey: true,
            setting: Setting::Default,
        }
    }

    /// Its parent.
    pub fn parent(&self) -> Parent
        ensures { result ≡ self.now.parent }
    {
        self.parent
    }

    /// Its primes: a bit for each operator, the least bit for the first.
    pub fn primes(&self) -> u8
        ensures { result ≡ self.now.primes }
    {
        self.primes
    }

    /// Whether it is grey.
    pub fn is_grey(&self) -> bool
        ensures value { result ≡ self.now.grey }
        ensures symbol { IsGroupSymbol self.now }
    {
        self.grey
    }

    /// Its setting.
    pub fn setting(&self) -> Setting
        ensures { result ≡ self.now.setting }
    {
        self.setting
    }
}
