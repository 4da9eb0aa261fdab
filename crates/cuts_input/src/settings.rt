// The settings: the fields with tags 1, 2 and 3.
ghost use Rattle.std.specs.Prelude.{◌≡◌, ◌≤◌, length, MatchOption, IfSome, None};
ghost use Rattle.cuts_input.specs.Form.{cost_of, penalty_of, least_of, settings_of};
ghost use Rattle.cuts_input.specs.Inner.Held.{Reads, settings};

use crate::field::field;
use costs::{CostFunction, Penalty};

// The settings of a search.
#[derive(Clone, Copy)]
pub struct Settings {
    pub cost: CostFunction,
    pub penalty: Penalty,
    pub min_segment_len: usize,
}

// The cost function that `value` means: one byte, 0 for L2 or 1 for Normal.
#[tactic(auto, using(std::proofs::lemmas::Bool::Decides::nat_tests), unfolding(crate::specs::Form::cost_of))]
fn cost_of(value: &[u8]) -> Option<CostFunction>
    ensures { result ≡ cost_of value.now }
{
    let &[byte] = value else {
        return None;
    };
    match byte {
        0 => Some(CostFunction::L2),
        1 => Some(CostFunction::Normal),
        _ => None,
    }
}

// The penalty that `value` means: empty for BIC, or 8 bytes of a custom value.
#[tactic(auto, using(std::proofs::lemmas::Bool::Decides::nat_tests, crate::proofs::NumberLaws::word_is), unfolding(crate::specs::Form::penalty_of))]
fn penalty_of(value: &[u8]) -> Option<Penalty>
    ensures { result ≡ penalty_of value.now }
{
    if value.is_empty() {
        return Some(Penalty::Bic);
    }
    let word = value.as_array::<8>()?;
    Some(Penalty::Custom(floats::from_bits(u64::from_be_bytes(*word))))
}

// The minimum length that `value` means: two bytes.
#[tactic(auto, using(std::proofs::lemmas::Bool::Decides::nat_tests, crate::proofs::NumberLaws::pair_is), unfolding(crate::specs::Form::least_of))]
fn least_of(value: &[u8]) -> Option<usize>
    ensures { result ≡ least_of value.now }
{
    let word = value.as_array::<2>()?;
    Some(usize::from(u16::from_be_bytes(*word)))
}

// The settings that the three fields at the front of `input` make up, in the order of their tags, and
// the bytes behind them.
#[tactic(auto, unfolding(crate::specs::Form::settings_of, crate::specs::Form::field_of))]
pub(crate) fn read_settings(input: &[u8]) -> Option<(Settings, &[u8])>
    ensures value { MatchOption result (settings_of input.now ≡ None) (λ p. Reads (settings_of input.now) (settings p.0) p.1.now) }
    ensures size { IfSome result (λ p. length p.1.now ≤ length input.now) }
{
    let (first, behind) = field(input, 1)?;
    let cost = cost_of(first)?;
    let (second, behind) = field(behind, 2)?;
    let penalty = penalty_of(second)?;
    let (third, behind) = field(behind, 3)?;
    let min_segment_len = least_of(third)?;
    let settings = Settings {
        cost,
        penalty,
        min_segment_len,
    };
    Some((settings, behind))
}
