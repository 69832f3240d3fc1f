//! The texts of limiting groups.
ghost use Rattle.std.specs.Prelude.{◌≡◌, ◌<◌, length};
ghost use Rattle.curie_runs.specs.CurieTexts.{ReadsCurie, curie_at, curie_text};

use group_symbol::common_front;
use limiting_groups::Curie;
use text_defs::Fault;

/// The group at a place of their list.
#[tactic(auto, unfolding(crate::specs::CurieTexts::curie_at))]
fn curie_at(place: usize) -> Curie
    requires { place < 5 }
    ensures { result ≡ curie_at place }
{
    match place {
        0 => Curie::Inf,
        1 => Curie::InfM,
        2 => Curie::Inf2,
        3 => Curie::InfOverM,
        _ => Curie::InfOverMM,
    }
}

/// The text of a group.
pub fn curie_text(group: Curie) -> &'static [u8]
    ensures { result.now ≡ curie_text group }
{
    match group {
        Curie::Inf => b"inf",
        Curie::InfM => b"infm",
        Curie::Inf2 => b"inf2",
        Curie::InfOverM => b"inf/m",
        Curie::InfOverMM => b"inf/mm",
    }
}

/// The limiting group whose text the whole word is; else the length of the longest front of the word that begins such a
/// text.
pub fn read_curie(word: &[u8]) -> Result<Curie, Fault>
    ensures { ReadsCurie word.now result }
{
    let mut furthest = 0usize;
    for place in 0..5 {
        let group = curie_at(place);
        let text = curie_text(group);
        let same = common_front(text, word);
        if same == text.len() && same == word.len() {
            return Ok(group);
        }
        furthest = furthest.max(same);
    }
    Err(Fault { place: furthest })
}
