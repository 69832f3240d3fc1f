//! The keyword of a line.

ghost use Rattle.std.specs.Prelude.{◌≡◌, ◌<◌, ◌≤◌, IfOk, length};
ghost use Rattle.request_lines.specs.Keywords.{keyword_text, keyword_at, ReadsKeyword};

use group_symbol::common_front;
use text_defs::Fault;

/// What the first word of a line asks for.
#[derive(Clone, Copy, Debug, Drop)]
pub(crate) enum Keyword {
    Form,
    Group,
    Voigt,
    States,
    Pairs,
    Differ,
    Same,
}

/// The keyword at a place of their list.
#[tactic(auto, unfolding(crate::specs::Keywords::keyword_at))]
fn keyword_at(place: usize) -> Keyword
    requires { place < 7 }
    ensures { result ≡ keyword_at place }
{
    match place {
        0 => Keyword::Form,
        1 => Keyword::Group,
        2 => Keyword::Voigt,
        3 => Keyword::States,
        4 => Keyword::Pairs,
        5 => Keyword::Differ,
        _ => Keyword::Same,
    }
}

/// The text of a keyword, with the space behind it.
fn text_of(keyword: Keyword) -> &'static [u8]
    ensures { result.now ≡ keyword_text keyword }
{
    match keyword {
        Keyword::Form => b"form ",
        Keyword::Group => b"group ",
        Keyword::Voigt => b"voigt ",
        Keyword::States => b"states ",
        Keyword::Pairs => b"pairs ",
        Keyword::Differ => b"differ ",
        Keyword::Same => b"same ",
    }
}

/// The keyword that the line begins with, and the place behind its space.
pub(crate) fn read_keyword(line: &[u8]) -> Result<(Keyword, usize), Fault>
    ensures reads { ReadsKeyword line.now result }
    ensures within { IfOk result (λ x. x.1 ≤ length line.now) }
{
    let mut furthest = 0usize;
    for place in 0..7 {
        let keyword = keyword_at(place);
        let text = text_of(keyword);
        let same = common_front(text, line);
        if same == text.len() {
            return Ok((keyword, same));
        }
        furthest = furthest.max(same);
    }
    Err(Fault { place: furthest })
}
