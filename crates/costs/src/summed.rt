// The cost of a segment by the running sums that an area holds.
ghost use Rattle.std.specs.Prelude.{◌≡◌, ◌+◌, ◌*◌, ◌<◌, ◌≤◌, length, get_or};
ghost use Rattle.std.specs.Float.{nan};
ghost use Rattle.refusals.specs.Limits.{max_channels, max_readings};
ghost use Rattle.floats.specs.Numbers.{◌-ᶠ◌};
ghost use Rattle.costs.specs.Summed.{segment_at, area_cost_to, segment_fits, area_cost};

use crate::segments::segment_cost;
use crate::{CostFunction, Segment};
use readings::Channels;
use refusals::{MAX_CHANNELS, MAX_READINGS};

// The readings from `start` up to `end`, without `end`, of each channel.
#[derive(Clone, Copy)]
struct Span {
    start: usize,
    end: usize,
}

// Whether an area of `size` floats can hold the sums of `channels`, within the limits of a call, and those
// have the segment `span`. The limits are tested first, so that no product wraps.
#[tactic(auto, using(sums::proofs::ChannelLaws::sums_small), unfolding(crate::specs::Summed::segment_fits))]
fn segment_fits(size: usize, channels: Channels, span: Span) -> bool
    ensures { result ≡ segment_fits size channels.length channels.count span.start span.end }
{
    span.start < span.end
        && span.end <= channels.length
        && channels.length <= MAX_READINGS
        && channels.count <= MAX_CHANNELS
        && channels.count * (2 * (channels.length + 1)) <= size
}

// The running sum at the end of `span` less the one at its start, of those that stand in `area` at
// `place`.
fn between(area: &[f64], place: usize, span: Span) -> f64
    requires { (place + span.start < length area.now) × (place + span.end < length area.now) }
    ensures { result ≡ get_or area.now (place + span.end) nan -ᶠ get_or area.now (place + span.start) nan }
{
    area[place + span.end] - area[place + span.start]
}

// The segment `span` of the channel of `n` readings whose running sums stand in `area` at `place`, and
// those of the squares behind them.
#[tactic(auto, unfolding(crate::specs::Summed::segment_at))]
fn segment_at(area: &[f64], n: usize, place: usize, span: Span) -> Segment
    requires { (span.start < span.end) × (span.end ≤ n) × (n ≤ max_readings) × (place + 2 * (n + 1) ≤ length area.now) }
    ensures { result ≡ segment_at area.now n place span.start span.end }
{
    Segment {
        length: ((span.end - span.start) as u32) as f64,
        sum: between(area, place, span),
        sum_of_squares: between(area, place + (n + 1), span),
    }
}

// The costs by `cost` of the segment `span`, added over the `channels` whose running sums `area` holds.
// Cost: one turn for each channel.
fn add_channels(cost: CostFunction, area: &[f64], channels: Channels, span: Span) -> f64
    requires { (span.start < span.end) × (span.end ≤ channels.length) × (channels.length ≤ max_readings) × (channels.count ≤ max_channels) × (channels.count * (2 * (channels.length + 1)) ≤ length area.now) }
    ensures { result ≡ area_cost_to cost area.now channels.length span.start span.end channels.count }
{
    let mut sum = 0.0;
    for c in 0..channels.count {
        let place = c * (2 * (channels.length + 1));
        sum += segment_cost(cost, segment_at(area, channels.length, place, span));
    }
    sum
}

// The cost by `cost` of the readings from `start` up to `end`, added over the `channels` channels of `n`
// readings whose running sums `area` holds, as `sums::channel_sums` writes them; NaN where `start` is
// not below `end`, `end` is above `n`, `area` is too short for the sums, or a limit of a call is passed.
// The four numbers stand apart, as its callers hold them: each would only build both structs at the call.
#[tactic(auto, using(crate::proofs::SummedLaws::fitted), unfolding(crate::specs::Summed::area_cost))]
pub fn cost_of(
    cost: CostFunction,
    area: &[f64],
    n: usize,
    channels: usize,
    start: usize,
    end: usize,
) -> f64
    ensures { result ≡ area_cost cost area.now n channels start end }
{
    let span = Span { start, end };
    let channels = Channels {
        count: channels,
        length: n,
    };
    if !segment_fits(area.len(), channels, span) {
        return f64::NAN;
    }
    add_channels(cost, area, channels, span)
}
