// Refusals 1 to 8 of a search, tried one after the other.
ghost use Rattle.std.specs.Prelude.{◌≡◌, ◌≤◌, Ok, Err};
ghost use Rattle.refusals.specs.Limits.{max_channels, max_readings};
ghost use Rattle.refusals.specs.Tried.{tried};
ghost use Rattle.search_answer.specs.Tests.{bad_penalty, short_room, room_tests, admitted_as};

use costs::Penalty;
use floats::finite;
use readings::{Channels, all_finite, shape};
use refusals::Refusal;

// The least that a minimum length may be: less is refusal 2.
const LEAST_MINIMUM: usize = 2;

// Refusal 1: whether `penalty` is a custom one that is not finite or not above 0.
#[tactic(auto, unfolding(crate::specs::Tests::bad_penalty))]
fn bad_penalty(penalty: Penalty) -> bool
    ensures { result ≡ bad_penalty penalty }
{
    match penalty {
        Penalty::Bic => false,
        Penalty::Custom(value) => !(finite(value) && 0.0 < value),
    }
}

// Refusal 7: whether areas with room for `cuts` cuts, `floats` floats and `indices` indices are less
// than these channels ask.
#[tactic(auto, using(search_rules::proofs::RoomLaws::floats_small), unfolding(crate::specs::Tests::short_room, search_rules::specs::Room::room_fits))]
fn short_room(channels: Channels, cuts: usize, floats: usize, indices: usize) -> bool
    requires { (channels.length ≤ max_readings) × (channels.count ≤ max_channels) }
    ensures { result ≡ short_room channels.length channels.count cuts floats indices }
{
    let w = channels.length + 1;
    cuts < channels.length / 2 || floats < (2 * channels.count + 2) * w || indices < 3 * w
}

// Refusal 7, and 8 where the search is `strict`, or the `channels` of `run`; `cuts`, `floats` and
// `indices` are the lengths of the lent areas.
#[tactic(auto, unfolding(crate::specs::Tests::room_tests, refusals::specs::Tried::tried, readings::specs::Gaps::checked_as, readings::specs::Gaps::gap_tests))]
fn roomy(
    strict: bool,
    run: &[f64],
    channels: Channels,
    cuts: usize,
    floats: usize,
    indices: usize,
) -> Result<Channels, Refusal>
    requires { (channels.length ≤ max_readings) × (channels.count ≤ max_channels) }
    ensures { result ≡ tried Err (room_tests strict run.now channels.length channels.count cuts floats indices) (Ok channels) }
{
    if short_room(channels, cuts, floats, indices) {
        return Err(Refusal::Room);
    }
    if strict {
        all_finite(run, channels.length)?;
    }
    Ok(channels)
}

// The channels that `lengths` make of `run`, where a search with these settings may begin, or the first
// refusal; `cuts`, `floats` and `indices` are the lengths of the lent areas. Cost: one turn for each
// length, and for each reading where the search is `strict`.
#[tactic(auto, using(crate::proofs::AdmissionLaws::penalty_first, crate::proofs::AdmissionLaws::least_second, crate::proofs::AdmissionLaws::shape_third, crate::proofs::AdmissionLaws::room_last, crate::proofs::AdmissionLaws::shape_limits))]
pub fn admitted(
    penalty: Penalty,
    min_segment_len: usize,
    strict: bool,
    run: &[f64],
    lengths: &[usize],
    cuts: usize,
    floats: usize,
    indices: usize,
) -> Result<Channels, Refusal>
    ensures { result ≡ admitted_as strict penalty min_segment_len run.now lengths.now cuts floats indices }
{
    if bad_penalty(penalty) {
        return Err(Refusal::Penalty);
    }
    if min_segment_len < LEAST_MINIMUM {
        return Err(Refusal::MinLen);
    }
    let channels = shape(lengths, run.len())?;
    roomy(strict, run, channels, cuts, floats, indices)
}
