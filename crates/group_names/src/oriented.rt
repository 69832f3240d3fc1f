//! The parents in the settings that they take, with the matrices of the groups of their symbols.
ghost use Rattle.std.specs.Prelude.{◌≡◌, ◌<◌};
ghost use Rattle.group_names.specs.LookUps.{row_of};

use group_symbol::{Parent, Setting};

/// A parent, by its number, in a setting that it takes, and the matrices of the groups of its symbols in this setting: a
/// binary digit for each of the 64 matrices, the least significant one for the identity.
#[derive(Clone, Copy, Drop)]
pub(crate) struct Oriented {
    pub parent: u8,
    pub setting: Setting,
    pub matrices: u64,
}

/// The parents with their settings, in the order of symbols.
#[rattlefmt::skip]
static ORIENTED: [Oriented; 61] = [
    Oriented { parent: 1, setting: Setting::Default, matrices: 0x0000_0000_0000_0001 },
    Oriented { parent: 2, setting: Setting::Default, matrices: 0x8000_0000_0000_0001 },
    Oriented { parent: 3, setting: Setting::Default, matrices: 0x0200_0000_0000_0001 },
    Oriented { parent: 3, setting: Setting::X, matrices: 0x0000_0000_0000_0081 },
    Oriented { parent: 3, setting: Setting::Z, matrices: 0x4000_0000_0000_0001 },
    Oriented { parent: 3, setting: Setting::XY, matrices: 0x0000_0000_0002_0001 },
    Oriented { parent: 4, setting: Setting::Default, matrices: 0x0000_0000_0000_0041 },
    Oriented { parent: 4, setting: Setting::X, matrices: 0x0100_0000_0000_0001 },
    Oriented { parent: 4, setting: Setting::Z, matrices: 0x0000_0000_0000_0003 },
    Oriented { parent: 4, setting: Setting::XY, matrices: 0x0000_4000_0000_0001 },
    Oriented { parent: 5, setting: Setting::Default, matrices: 0x8200_0000_0000_0041 },
    Oriented { parent: 5, setting: Setting::X, matrices: 0x8100_0000_0000_0081 },
    Oriented { parent: 5, setting: Setting::Z, matrices: 0xc000_0000_0000_0003 },
    Oriented { parent: 5, setting: Setting::XY, matrices: 0x8000_4000_0002_0001 },
    Oriented { parent: 6, setting: Setting::Default, matrices: 0x4200_0000_0000_0081 },
    Oriented { parent: 6, setting: Setting::D, matrices: 0x4000_8000_0002_0001 },
    Oriented { parent: 7, setting: Setting::Default, matrices: 0x4100_0000_0000_0041 },
    Oriented { parent: 7, setting: Setting::D, matrices: 0x4000_4000_0001_0001 },
    Oriented { parent: 8, setting: Setting::Default, matrices: 0x0300_0000_0000_0003 },
    Oriented { parent: 8, setting: Setting::D, matrices: 0x0000_c000_0000_0003 },
    Oriented { parent: 9, setting: Setting::Default, matrices: 0x0000_0000_0000_00c3 },
    Oriented { parent: 9, setting: Setting::D, matrices: 0x0000_0000_0003_0003 },
    Oriented { parent: 10, setting: Setting::Default, matrices: 0xc300_0000_0000_00c3 },
    Oriented { parent: 10, setting: Setting::D, matrices: 0xc000_c000_0003_0003 },
    Oriented { parent: 11, setting: Setting::Default, matrices: 0x4000_0100_0040_0001 },
    Oriented { parent: 12, setting: Setting::Default, matrices: 0x4000_0200_0080_0001 },
    Oriented { parent: 13, setting: Setting::Default, matrices: 0xc000_0300_00c0_0003 },
    Oriented { parent: 14, setting: Setting::Default, matrices: 0x4200_8100_0042_0081 },
    Oriented { parent: 15, setting: Setting::Default, matrices: 0x4100_4100_0041_0041 },
    Oriented { parent: 16, setting: Setting::Default, matrices: 0x4200_4200_0081_0081 },
    Oriented { parent: 17, setting: Setting::Default, matrices: 0x4100_8200_0082_0041 },
    Oriented { parent: 18, setting: Setting::Default, matrices: 0xc300_c300_00c3_00c3 },
    Oriented { parent: 19, setting: Setting::Default, matrices: 0x0014_0000_0000_0001 },
    Oriented { parent: 19, setting: Setting::P, matrices: 0x0000_0000_0104_0001 },
    Oriented { parent: 20, setting: Setting::Default, matrices: 0x8014_0000_0000_2801 },
    Oriented { parent: 20, setting: Setting::P, matrices: 0x8000_2080_0104_0001 },
    Oriented { parent: 21, setting: Setting::Default, matrices: 0x0096_0000_0000_0081 },
    Oriented { parent: 21, setting: Setting::P, matrices: 0x2000_8020_0104_0001 },
    Oriented { parent: 22, setting: Setting::Default, matrices: 0x0096_0000_0000_0081 },
    Oriented { parent: 23, setting: Setting::Default, matrices: 0x0214_0000_0000_8201 },
    Oriented { parent: 24, setting: Setting::Default, matrices: 0x0114_0000_0000_4101 },
    Oriented { parent: 24, setting: Setting::P, matrices: 0x0000_0000_0505_0005 },
    Oriented { parent: 25, setting: Setting::Default, matrices: 0x0114_0000_0000_4101 },
    Oriented { parent: 26, setting: Setting::Default, matrices: 0x0055_0000_0000_0041 },
    Oriented { parent: 27, setting: Setting::Default, matrices: 0x8196_0000_0000_6981 },
    Oriented { parent: 27, setting: Setting::P, matrices: 0xa000_a0a0_0505_0005 },
    Oriented { parent: 28, setting: Setting::Default, matrices: 0x8196_0000_0000_6981 },
    Oriented { parent: 29, setting: Setting::Default, matrices: 0x8255_0000_0000_aa41 },
    Oriented { parent: 30, setting: Setting::Default, matrices: 0x4014_0000_0000_1401 },
    Oriented { parent: 31, setting: Setting::Default, matrices: 0x003c_0000_0000_0003 },
    Oriented { parent: 32, setting: Setting::Default, matrices: 0xc03c_0000_0000_3c03 },
    Oriented { parent: 33, setting: Setting::Default, matrices: 0x4296_0000_0000_9681 },
    Oriented { parent: 34, setting: Setting::Default, matrices: 0x4155_0000_0000_5541 },
    Oriented { parent: 35, setting: Setting::Default, matrices: 0x033c_0000_0000_c303 },
    Oriented { parent: 36, setting: Setting::Default, matrices: 0x00ff_0000_0000_00c3 },
    Oriented { parent: 37, setting: Setting::Default, matrices: 0xc3ff_0000_0000_ffc3 },
    Oriented { parent: 38, setting: Setting::Default, matrices: 0x4200_1842_8124_0081 },
    Oriented { parent: 39, setting: Setting::Default, matrices: 0xc300_3cc3_c33c_00c3 },
    Oriented { parent: 40, setting: Setting::Default, matrices: 0x6600_9966_9966_0099 },
    Oriented { parent: 41, setting: Setting::Default, matrices: 0x5a00_5a5a_a5a5_00a5 },
    Oriented { parent: 42, setting: Setting::Default, matrices: 0xff00_ffff_ffff_00ff },
];

/// The matrices of a row of the list, counted from 0.
pub(crate) fn matrices_at(place: usize) -> u64
    requires { place < 61 }
    ensures { result ≡ (row_of place).matrices }
{
    ORIENTED[place].matrices
}

/// The parent of a row.
pub(crate) fn parent_at(place: usize) -> Parent
    requires { place < 61 }
    ensures { result ≡ (row_of place).parent }
{
    let Some(parent) = Parent::from_number(ORIENTED[place].parent) else {
        unreachable!()
    };
    parent
}

/// The setting of a row.
pub(crate) fn setting_at(place: usize) -> Setting
    requires { place < 61 }
    ensures { result ≡ (row_of place).setting }
{
    ORIENTED[place].setting
}
