//! The long texts without primes.
ghost use Rattle.std.specs.Prelude.{◌≡◌, ◌<◌, ◌≤◌};
ghost use Rattle.dialects.specs.LongTexts.{form_at};
ghost use Rattle.dialects.specs.Tables.{form_of};

use group_symbol::Direction::{self, X, XYZ, XmY, Y, Z};
use group_symbol::OpKind::{self, Bar3, Four, Mirror, Six, Two};

/// What stands before the sign of an operator and that sign, and the operator with its direction in the default
/// setting.
#[derive(Clone, Copy, Drop)]
pub(crate) struct Piece {
    pub text: &'static [u8],
    pub kind: OpKind,
    pub direction: Direction,
}

/// A long text: the number of its parent, its pieces, and what stands behind the last of them.
#[derive(Clone, Copy, Drop)]
pub(crate) struct LongForm {
    pub parent: u8,
    pub pieces: &'static [Piece],
    pub ending: &'static [u8],
}

// The pieces: signs in the first position, and behind a dot those in a later one.
const TWO_X: Piece = Piece {
    text: b"2",
    kind: Two,
    direction: X,
};

const TWO_Z: Piece = Piece {
    text: b"2",
    kind: Two,
    direction: Z,
};

const FOUR_Z: Piece = Piece {
    text: b"4",
    kind: Four,
    direction: Z,
};

const SIX_Z: Piece = Piece {
    text: b"6",
    kind: Six,
    direction: Z,
};

const BAR_THREE_Z: Piece = Piece {
    text: b"-3",
    kind: Bar3,
    direction: Z,
};

const MIRROR_X: Piece = Piece {
    text: b"/m",
    kind: Mirror,
    direction: X,
};

const MIRROR_Y: Piece = Piece {
    text: b"/m",
    kind: Mirror,
    direction: Y,
};

const MIRROR_Z: Piece = Piece {
    text: b"/m",
    kind: Mirror,
    direction: Z,
};

const MIRROR_XMY: Piece = Piece {
    text: b"/m",
    kind: Mirror,
    direction: XmY,
};

const NEXT_TWO_X: Piece = Piece {
    text: b".2",
    kind: Two,
    direction: X,
};

const NEXT_TWO_Y: Piece = Piece {
    text: b".2",
    kind: Two,
    direction: Y,
};

const NEXT_TWO_Z: Piece = Piece {
    text: b".2",
    kind: Two,
    direction: Z,
};

const NEXT_TWO_XMY: Piece = Piece {
    text: b".2",
    kind: Two,
    direction: XmY,
};

const THIRD_TWO_Y: Piece = Piece {
    text: b".1.2",
    kind: Two,
    direction: Y,
};

const NEXT_BAR_THREE: Piece = Piece {
    text: b".-3",
    kind: Bar3,
    direction: XYZ,
};

/// The long forms, in the order of their parents.
static FORMS: [LongForm; 8] = [
    LongForm {
        parent: 10,
        pieces: &[TWO_X, MIRROR_X, NEXT_TWO_Y, MIRROR_Y, NEXT_TWO_Z, MIRROR_Z],
        ending: b"",
    },
    LongForm {
        parent: 18,
        pieces: &[
            FOUR_Z,
            MIRROR_Z,
            NEXT_TWO_X,
            MIRROR_X,
            NEXT_TWO_XMY,
            MIRROR_XMY,
        ],
        ending: b"",
    },
    LongForm {
        parent: 27,
        pieces: &[BAR_THREE_Z, NEXT_TWO_X, MIRROR_X],
        ending: b"",
    },
    LongForm {
        parent: 28,
        pieces: &[BAR_THREE_Z, NEXT_TWO_X, MIRROR_X],
        ending: b".1",
    },
    LongForm {
        parent: 29,
        pieces: &[BAR_THREE_Z, THIRD_TWO_Y, MIRROR_Y],
        ending: b"",
    },
    LongForm {
        parent: 37,
        pieces: &[SIX_Z, MIRROR_Z, NEXT_TWO_X, MIRROR_X, NEXT_TWO_Y, MIRROR_Y],
        ending: b"",
    },
    LongForm {
        parent: 39,
        pieces: &[TWO_Z, MIRROR_Z, NEXT_BAR_THREE],
        ending: b"",
    },
    LongForm {
        parent: 42,
        pieces: &[FOUR_Z, MIRROR_Z, NEXT_BAR_THREE, NEXT_TWO_XMY, MIRROR_XMY],
        ending: b"",
    },
];

/// The long form at a place of the table.
pub(crate) fn form_at(place: usize) -> &'static LongForm
    requires { place < 8 }
    ensures { form_of result.now ≡ form_at place }
{
    &FORMS[place]
}
