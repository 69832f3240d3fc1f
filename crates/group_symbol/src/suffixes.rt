//! The suffixes of the settings.
ghost use Rattle.std.specs.Prelude.{◌≡◌, ◌<◌};
ghost use Rattle.group_symbol.specs.Tables.{suffix_of, takes};
ghost use Rattle.text_defs.specs.GroupTexts.{suffix_at};

use crate::parents::Parent;
use tensor_defs::Setting;

/// The parents that take a suffix.
#[derive(Clone, Copy, Drop)]
pub(crate) enum ParentClass {
    All,
    Monoclinic,
    Orthorhombic,
    TurnedTrigonal,
}

impl ParentClass {
    /// Whether the parent is one of them.
    pub fn contains(self, parent: Parent) -> bool
        ensures { result ≡ takes self parent }
    {
        match self {
            ParentClass::All => true,
            ParentClass::Monoclinic => parent.is_monoclinic(),
            ParentClass::Orthorhombic => parent.is_orthorhombic(),
            ParentClass::TurnedTrigonal => parent.is_turned_trigonal(),
        }
    }
}

/// A suffix, the setting that it says, and the parents that take it.
#[derive(Clone, Copy, Drop)]
pub(crate) struct SuffixRow {
    pub text: &'static [u8],
    pub setting: Setting,
    pub parents: ParentClass,
}

/// The suffixes. The text @y says the setting that a monoclinic parent has without a suffix.
static SUFFIXES: [SuffixRow; 7] = [
    SuffixRow {
        text: b"",
        setting: Setting::Default,
        parents: ParentClass::All,
    },
    SuffixRow {
        text: b"@y",
        setting: Setting::Default,
        parents: ParentClass::Monoclinic,
    },
    SuffixRow {
        text: b"@x",
        setting: Setting::X,
        parents: ParentClass::Monoclinic,
    },
    SuffixRow {
        text: b"@z",
        setting: Setting::Z,
        parents: ParentClass::Monoclinic,
    },
    SuffixRow {
        text: b"@xy",
        setting: Setting::XY,
        parents: ParentClass::Monoclinic,
    },
    SuffixRow {
        text: b"@d",
        setting: Setting::D,
        parents: ParentClass::Orthorhombic,
    },
    SuffixRow {
        text: b"@p",
        setting: Setting::P,
        parents: ParentClass::TurnedTrigonal,
    },
];

/// The suffix at a row of the table.
pub(crate) fn suffix_at(row: usize) -> &'static SuffixRow
    requires { row < 7 }
    ensures { suffix_of result.now ≡ suffix_at row }
{
    &SUFFIXES[row]
}
