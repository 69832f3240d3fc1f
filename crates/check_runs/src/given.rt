//! The tensor that words give.
ghost use Rattle.std.specs.Prelude.{◌≡◌, ◌<◌, ℕ, length, map, string_bytes, IfErr, IfOk, MatchBool};
ghost use Rattle.tensor_defs.specs.Jahn.{JahnSymbol, rank};
ghost use Rattle.tensor_defs.specs.Symbols.{GroupSymbol};
ghost use Rattle.tensor_action.specs.Acting.{tensor_of};
ghost use Rattle.check_runs.specs.Settings.{AreOnce, AreSettings, component_at, given_tensor};
ghost use Rattle.check_runs.specs.Stops.{IsStopGiven, IsTwiceStop, given_by_all};

use crate::settings::{Setting, read_setting};
use crate::stops::{Stop, refused};
use exact_frac::Frac;
use root3_num::Root3;
use std::alloc::Global;
use tensor_rank::Rank;
use tool_runs::RefusalName;

/// What the words behind the first two give to components, in their order.
pub(crate) fn read_settings<R: Rank>(alloc: Global, words: &[String]) -> Result<Vec<Setting>, Stop>
    ensures settings { IfOk result (λ s. AreSettings R.R (map string_bytes words.now) (given_by_all s.items)) }
    ensures stop { IfErr result (λ s. (g : GroupSymbol) → (j : JahnSymbol) → rank j ≡ R.R → IsStopGiven g j (map string_bytes words.now) s) }
{
    let mut settings = Vec::new(alloc);
    for place in 0..words.len() {
        match read_setting::<R>(words[place].as_bytes()) {
            Ok(setting) => match settings.push(setting) {
                Ok(()) => {}
                Err(_) => return Err(Stop::NoMemory),
            },
            Err(fault) => return Err(refused(place + 3, fault.place + 1, RefusalName::Syntax)),
        }
    }
    Ok(settings)
}

/// Whether one of the settings gives a number to the component.
fn has_component(settings: &[Setting], component: usize) -> bool
    ensures { MatchBool result ((i : ℕ) × (i < length settings.now) × (component_at (given_by_all settings.now) i ≡ component)) ((i : ℕ) → i < length settings.now → component_at (given_by_all settings.now) i ≡ component → ⊥) }
{
    for place in 0..settings.len() {
        if settings[place].component == component {
            return true;
        }
    }
    false
}

/// All components in index order, 0 where no setting gives a number to one. A component that is given twice is refused.
pub(crate) fn given_tensor<R: Rank>(alloc: Global, settings: &[Setting]) -> Result<Vec<Root3>, Stop>
    requires { (k : ℕ) → k < length settings.now → component_at (given_by_all settings.now) k < R.LEN }
    ensures size { IfOk result (λ t. length t.items ≡ R.LEN) }
    ensures once { IfOk result (λ _. AreOnce (given_by_all settings.now)) }
    ensures tensor { IfOk result (λ t. tensor_of t.items ≡ given_tensor (given_by_all settings.now)) }
    ensures stop { IfErr result (IsTwiceStop (given_by_all settings.now)) }
{
    let zero = Root3::of(Frac::zero(), Frac::zero());
    let mut t = match vec![in alloc; zero; R::LEN] {
        Ok(t) => t,
        Err(_) => return Err(Stop::NoMemory),
    };
    for place in 0..settings.len() {
        let setting = settings[place];
        if has_component(&settings[..place], setting.component) {
            return Err(refused(place + 3, 1, RefusalName::Twice));
        }
        t[setting.component] = setting.number;
    }
    Ok(t)
}
