//! Writing a symbol.
ghost use Rattle.std.specs.Prelude.{◌≡◌, ◌+◌, ◌*◌, ◌≤◌, ◌<◌, ◌++◌, OnOk, OnErr, length, vec_len, vec_capacity};
ghost use Rattle.text_defs.specs.GroupTexts.{with_primes, grey_text, setting_text, group_text};

use crate::parents::ends_operator;
use crate::short_text::ShortText;
use crate::tree::SymbolTree;
use tensor_defs::Setting;

/// Memory ran out.
#[derive(Clone, Copy, Debug, PartialEq, Eq, Drop)]
pub struct NoMemory;

/// Appends the signs, with a prime behind each operator whose bit is set.
fn push_signs(signs: &[u8], primes: u8, text: &mut ShortText)
    requires { length text.old + 2 * length signs.now ≤ 16 }
    ensures value { text.new ≡ text.old ++ with_primes 0 signs.now primes }
    ensures short { length text.new ≤ length text.old + 2 * length signs.now }
{
    let mut left = primes;
    let mut previous = 0;
    for sign in signs {
        text.push(*sign);
        if ends_operator(previous, *sign) {
            if left % 2 == 1 {
                text.push(b'\'');
            }
            left /= 2;
        }
        previous = *sign;
    }
}

/// The suffix that is written for a setting.
pub fn setting_text(setting: Setting) -> &'static [u8]
    ensures value { result.now ≡ setting_text setting }
    ensures short { length result.now ≤ 3 }
{
    match setting {
        Setting::Default => b"",
        Setting::X => b"@x",
        Setting::Z => b"@z",
        Setting::XY => b"@xy",
        Setting::D => b"@d",
        Setting::P => b"@p",
    }
}

/// The text of a symbol.
fn text_of(tree: &SymbolTree) -> ShortText
    ensures { result ≡ group_text tree.now }
{
    let mut text = ShortText::new();
    push_signs(tree.parent.text(), tree.primes, &mut text);
    let grey: &[u8] = if tree.grey { b"1'" } else { b"" };
    text.push_all(grey);
    text.push_all(setting_text(tree.setting));
    text
}

/// Appends the text of a symbol: the parent with its primes, 1' where it is grey, and the suffix of the
/// setting. At most 16 bytes.
pub fn write_group(tree: &SymbolTree, out: &mut Vec<u8>) -> Result<(), NoMemory>
    ensures ok { OnOk result (out.new.items ≡ out.old.items ++ group_text tree.now) }
    ensures err { OnErr result (out.new.items ≡ out.old.items) }

    // It fails only where room was missing, and gives none back.
    ensures full { OnErr result (vec_capacity out.old < vec_len out.old + 16) }
    ensures capacity { vec_capacity out.old ≤ vec_capacity out.new }
{
    out.extend_from_slice(text_of(tree).as_slice())
        .map_err(|_| NoMemory)
}
