//! The text of a number a + b√3.
ghost use Rattle.std.specs.Prelude.{◌≡◌, ◌≤◌, ◌+◌, ◌++◌, length};
ghost use Rattle.smallvec.specs.SmallVec.{HasRoomFor, small_vec_len};
ghost use Rattle.text_defs.specs.NumberTexts.{is_zero, is_one, is_negative, without_sign, root_text, before_root, root3_text};

use exact_frac::{Frac, append};
use smallvec::SmallVec;
use std::alloc::Global;

/// Whether a fraction is 0.
pub fn is_zero_part(fraction: &Frac) -> bool
    ensures { result ≡ is_zero fraction.now }
{
    fraction.num() == 0
}

/// Whether a fraction is 1.
pub fn is_one_part(fraction: &Frac) -> bool
    ensures { result ≡ is_one fraction.now }
{
    fraction.den() == 1 && fraction.num() == 1
}

/// Whether a fraction is negative.
pub fn is_negative_part(fraction: &Frac) -> bool
    ensures { result ≡ is_negative fraction.now }
{
    fraction.num() < 0
}

/// A fraction without its sign.
pub fn size_of_part(fraction: &Frac) -> Frac
    ensures { result ≡ without_sign fraction.now }
{
    if is_negative_part(fraction) {
        fraction.neg()
    } else {
        *fraction
    }
}

// What stands before r3.
fn append_before(out: &mut SmallVec<u8, 96>, alloc: Global, a: &Frac, b: &Frac)
    requires { HasRoomFor out.old 41 }
    ensures items { out.new.items ≡ out.old.items ++ before_root (record { a = a.now; b = b.now }) }
    ensures len { small_vec_len out.new ≤ small_vec_len out.old + 41 }
    ensures capacity { out.new.capacity ≡ out.old.capacity }
{
    let whole = is_zero_part(a);
    if !whole {
        append(out, a.text(alloc).as_slice());
    }
    if is_negative_part(b) {
        out.push_reserved(b'-');
    } else if !whole {
        out.push_reserved(b'+');
    }
}

// r3 with its factor.
fn append_root(out: &mut SmallVec<u8, 96>, alloc: Global, factor: &Frac)
    requires { HasRoomFor out.old 43 }
    ensures items { out.new.items ≡ out.old.items ++ root_text factor.now }
    ensures capacity { out.new.capacity ≡ out.old.capacity }
{
    if is_one_part(factor) {
        append(out, b"r3");
    } else {
        append(out, factor.text(alloc).as_slice());
        append(out, b"*r3");
    }
}

/// The text of a + b√3.
pub fn text_of(alloc: Global, a: &Frac, b: &Frac) -> SmallVec<u8, 96>
    ensures text { result.items ≡ root3_text (record { a = a.now; b = b.now }) }
    ensures inline { result.capacity ≡ 96 }
{
    let mut out = SmallVec::new(alloc);
    if is_zero_part(b) {
        append(&mut out, a.text(alloc).as_slice());
        return out;
    }
    append_before(&mut out, alloc, a, b);
    append_root(&mut out, alloc, &size_of_part(b));
    out
}
