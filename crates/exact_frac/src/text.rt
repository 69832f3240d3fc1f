//! The text of a fraction.
ghost use Rattle.std.specs.Prelude.{◌≡◌, ◌++◌, length};
ghost use Rattle.smallvec.specs.SmallVec.{HasRoomFor};

use smallvec::SmallVec;

/// Appends bytes for which there is room.
pub fn append<const N: usize>(out: &mut SmallVec<u8, N>, bytes: &[u8])
    requires { HasRoomFor out.old (length bytes.now) }
    ensures items { out.new.items ≡ out.old.items ++ bytes.now }
    ensures capacity { out.new.capacity ≡ out.old.capacity }
{
    for byte in bytes {
        out.push_reserved(*byte);
    }
}
