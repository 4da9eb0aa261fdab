// The weights of the candidates at t: F(tau) plus the cost from tau to t, and minus infinity for the
// young.
ghost use Rattle.std.specs.Prelude.{◌≡◌, ◌+◌, ◌-◌, ◌*◌, ◌≤◌, ◌<◌, ◌++◌, length, get_or};
ghost use Rattle.std.specs.Float.{nan};
ghost use Rattle.refusals.specs.Limits.{max_channels, max_readings};
ghost use Rattle.floats.specs.Numbers.{◌+ᶠ◌, of_whole};
ghost use Rattle.areas.specs.Parts.{tab};
ghost use Rattle.costs.specs.declared.CostFunction.TheVariants.{L2, Normal};
ghost use Rattle.search_rules.specs.Inequality.{old_enough};
ghost use Rattle.inequality.specs.Inner.Held.{Room, AllBelow, Rising};
ghost use Rattle.inequality.specs.Inner.Weights.{Parted, Written, costs_at, with_cost, with_costs, weight_by};

use crate::Plan;
use crate::normal::add_normal;
use crate::views::{Channel, View};
use costs::{CostFunction, Segment, l2_cost};

// Whether the candidate `tau` is at least `m` old at `t`.
fn old_enough(m: usize, t: usize, tau: usize) -> bool
    requires { tau < t }
    ensures { result ≡ old_enough m t tau }
{
    m <= t - tau
}

// How many readings there are from `tau` up to `t`, as a float.
pub(crate) fn length_of(tau: usize, t: usize) -> f64
    requires { (tau < t) × (t ≤ max_readings) }
    ensures { result ≡ of_whole (t - tau) }
{
    (t - tau) as f64
}

// How many of `candidates` are at least `m` old at `t`: the young are the last of them. Cost: one turn
// for each young one.
pub(crate) fn old_count(candidates: &[usize], m: usize, t: usize) -> usize
    requires { AllBelow t candidates.now × Rising candidates.now }
    ensures { Parted m t candidates.now result }
{
    for last in (0..candidates.len()).rev() {
        if old_enough(m, t, candidates[last]) {
            return last + 1;
        }
    }
    0
}

// Adds the L2 costs up to t in `channel` to `weights`. Cost: one turn for each candidate, with no
// branch, so that several go at once.
fn add_l2(channel: Channel<'_>, weights: &mut [f64])
    requires { length weights.old ≡ length channel.candidates.now }
    ensures { weights.new ≡ tab (with_cost L2 channel.entry weights.old) (length weights.old) }
{
    let Channel {
        sums,
        squares,
        candidates,
        sum,
        squared,
        t,
    } = channel;
    for (j, weight) in weights.iter_mut().enumerate() {
        *weight += l2_cost(Segment {
            length: length_of(candidates[j], t),
            sum: sum - sums[j],
            sum_of_squares: squared - squares[j],
        });
    }
}

// The same in two channels: a length is worked out, and a weight read and written, once for both. Cost:
// one turn for each candidate. It stays beside `add_l2`: `add_l2` alone, called for each channel, proves,
// but a search of 3 to 5 channels then takes 1.25 times the instructions and 1.2 times as long.
fn add_l2_pair(channel: Channel<'_>, next: Channel<'_>, weights: &mut [f64])
    requires { (length weights.old ≡ length channel.candidates.now) × (next.candidates.now ≡ channel.candidates.now) × (next.t ≡ channel.t) }
    ensures { weights.new ≡ tab (with_costs L2 channel.entry next.entry weights.old) (length weights.old) }
{
    let Channel {
        sums,
        squares,
        candidates,
        sum,
        squared,
        t,
    } = channel;
    let next_sums = next.sums;
    let next_squares = next.squares;
    let next_sum = next.sum;
    let next_squared = next.squared;
    for (j, weight) in weights.iter_mut().enumerate() {
        let length = length_of(candidates[j], t);
        let cost = l2_cost(Segment {
            length,
            sum: sum - sums[j],
            sum_of_squares: squared - squares[j],
        });
        let next_cost = l2_cost(Segment {
            length,
            sum: next_sum - next_sums[j],
            sum_of_squares: next_squared - next_squares[j],
        });
        *weight = *weight + cost + next_cost;
    }
}

// Adds the L2 costs up to t, over the first `channels` channels of `view`, to `weights`. Cost: one turn
// for every two channels.
fn add_l2_channels(view: View<'_>, channels: usize, weights: &mut [f64])
    requires { (length weights.old ≡ length view.candidates.now) × (2 * channels * view.w ≤ length view.parts.now) × (channels ≤ max_channels) × (weights.old ≡ tab (costs_at L2 view 0) (length weights.old)) }
    ensures { weights.new ≡ tab (costs_at L2 view.entry channels) (length weights.old) }
{
    for pair in 0..channels / 2 {
        add_l2_pair(view.channel(2 * pair), view.channel(2 * pair + 1), weights);
    }
    if channels % 2 == 1 {
        add_l2(view.channel(channels - 1), weights);
    }
}

// The same of the Normal costs. Cost: one turn for each channel.
fn add_normal_channels(view: View<'_>, channels: usize, weights: &mut [f64])
    requires { (length weights.old ≡ length view.candidates.now) × (2 * channels * view.w ≤ length view.parts.now) × (channels ≤ max_channels) × (weights.old ≡ tab (costs_at Normal view 0) (length weights.old)) }
    ensures { weights.new ≡ tab (costs_at Normal view.entry channels) (length weights.old) }
{
    for c in 0..channels {
        add_normal(view.channel(c), weights);
    }
}

// Sets `weights` to the costs up to t by `cost`, added over the first `channels` channels of `view`.
fn add_channels(view: View<'_>, cost: CostFunction, channels: usize, weights: &mut [f64])
    requires { (length weights.old ≡ length view.candidates.now) × (2 * channels * view.w ≤ length view.parts.now) × (channels ≤ max_channels) }
    ensures { weights.new ≡ tab (costs_at cost view.entry channels) (length weights.old) }
{
    weights.fill(0.0);
    match cost {
        CostFunction::L2 => add_l2_channels(view, channels, weights),
        CostFunction::Normal => add_normal_channels(view, channels, weights),
    }
}

// Sets each of `weights`, which is a candidate's cost so far, to F plus that cost: `least` has F at the
// candidates. Cost: one turn for each candidate.
fn add_least(least: &[f64], weights: &mut [f64])
    requires { length weights.old ≤ length least.now }
    ensures { weights.new ≡ tab (λ j. get_or least.now j nan +ᶠ get_or weights.old j nan) (length weights.old) }
{
    for (j, weight) in weights.iter_mut().enumerate() {
        *weight = least[j] + *weight;
    }
}

// Sets the first `count` of `weights` to those of the candidates at `t`, from what `parts` hold of them,
// as `plan` has it: of `candidates`, the first, which are at least m old, and of the young behind them.
pub(crate) fn weigh(
    parts: &[f64],
    weights: &mut [f64],
    candidates: &[usize],
    plan: Plan,
    count: usize,
    t: usize,
)
    requires { Room plan (length parts.now + length weights.old) (plan.c + (plan.n + 1)) × (length parts.now ≡ plan.p) × (t ≤ plan.n) × (length candidates.now ≤ count) × (count ≤ t) × AllBelow t candidates.now }
    ensures { Written (parts.now ++ weights.old) (parts.now ++ weights.new) plan.p (weight_by plan (parts.now ++ weights.old) candidates.now (length candidates.now) t) count }
{
    let old = candidates.len();
    let view = View {
        parts,
        candidates,
        w: plan.n + 1,
        t,
    };
    let ripe = &mut weights[..old];
    add_channels(view, plan.cost, plan.channels, ripe);
    add_least(&parts[plan.f..], ripe);
    weights[old..count].fill(f64::NEG_INFINITY);
}
