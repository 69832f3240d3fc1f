//! Signs.
ghost use Rattle.std.specs.Prelude.{◌≡◌};
ghost use Rattle.sign_moves.specs.Signs.{times};

use tensor_defs::Sign;

/// The product of two signs.
pub fn times(one: Sign, other: Sign) -> Sign
    ensures { result ≡ times one other }
{
    if one == other {
        Sign::Plus
    } else {
        Sign::Minus
    }
}
