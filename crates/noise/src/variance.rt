// The noise variance of a channel, and its sum over channels.
ghost use Rattle.std.specs.Prelude.{◌≡◌, true, length};
ghost use Rattle.noise.specs.Noise.{has_room, noise, noise_sum_to, cleared, Lent};

use areas::clear;
use floats::max;
use medians::median_difference;
use ranges::range_of;
use readings::channel_of;

// Whether an area of `size` floats has room for the differences of `n` readings at `place`: for n - 1 of
// them, and for none where `n` is 0. No sum is formed that could wrap.
#[tactic(auto, using(crate::proofs::NoiseLaws::room_left, crate::proofs::NoiseLaws::no_room))]
fn has_room(size: usize, n: usize, place: usize) -> bool
    ensures { result ≡ has_room size n place }
{
    place <= size && n.saturating_sub(1) <= size - place
}

// The noise variance of `channel`, worked out in the part of `area` at `place` that has a float for each
// difference, and is +0 afterwards; without room for it the answer is NaN and `area` stays.
#[tactic(auto, using(crate::proofs::NoiseLaws::has_room_lem))]
pub fn noise_variance(channel: &[f64], area: &mut [f64], place: usize) -> f64
    ensures { Lent (noise channel.now) (length channel.now) place area.old area.new result }
{
    if !has_room(area.len(), channel.len(), place) {
        return f64::NAN;
    }
    if channel.len() < 2 {
        return 0.0;
    }
    let end = place + (channel.len() - 1);
    let median = median_difference(channel, &mut area[place..end]);
    let range = range_of(channel);
    let sigma = median / (0.6745 * 1.4142135623730951);
    let least = max(sigma, 0.000001 * (range.hi - range.lo));
    least * least
}

// The noise variances of the `channels` channels of `run`, of `n` readings each, added from +0 on. The
// part of `area` at `place` is cleared first, for there may be no channel that does it. Cost: one turn
// for each channel.
fn add_noise(run: &[f64], n: usize, channels: usize, area: &mut [f64], place: usize) -> f64
    requires { has_room (length area.old) n place ≡ true }
    ensures { (result ≡ noise_sum_to run.now n channels) × (area.new ≡ cleared area.old n place) }
{
    clear(area, place, n.saturating_sub(1));
    let mut sum = 0.0;
    for k in 0..channels {
        sum += noise_variance(channel_of(run, channels, n, k), area, place);
    }
    sum
}

// The noise variances of the channels 0 to `channels - 1` of `run`, of `n` readings each, added in that
// order. All are worked out in the same n - 1 floats of `area` at `place`, which are +0 afterwards;
// without room for them the answer is NaN and `area` stays. `run`, `n` and `channels` stand apart, as in
// `readings::channel_of`, so that no function here holds a reference.
#[tactic(auto, using(crate::proofs::NoiseLaws::lent_found))]
pub fn noise_sum(run: &[f64], n: usize, channels: usize, area: &mut [f64], place: usize) -> f64
    ensures { Lent (noise_sum_to run.now n channels) n place area.old area.new result }
{
    if !has_room(area.len(), n, place) {
        return f64::NAN;
    }
    add_noise(run, n, channels, area, place)
}
