// The Normal costs of a channel, in blocks of candidates: their variances, the logarithms of these, and
// the costs added to the weights. Each stage is a loop of its own, so that several candidates go at
// once.
ghost use Rattle.std.specs.Prelude.{◌≡◌, ◌+◌, ◌-◌, ◌≤◌, ◌<◌, length, get_or};
ghost use Rattle.std.specs.Float.{nan};
ghost use Rattle.floats.specs.Numbers.{◌+ᶠ◌, ◌*ᶠ◌, of_whole};
ghost use Rattle.areas.specs.Parts.{tab};
ghost use Rattle.costs.specs.declared.CostFunction.TheVariants.{Normal};
ghost use Rattle.inequality.specs.Inner.Weights.{with_cost, with_logarithm, raised, variance_at};

use crate::views::Channel;
use crate::weights::length_of;
use costs::{Segment, l2_cost};
use logarithms::ln_each;

// `variance`, or the smallest normal number where it is at or below 0.
fn raised(variance: f64) -> f64
    ensures { result ≡ raised variance }
{
    if variance <= 0.0 {
        f64::MIN_POSITIVE
    } else {
        variance
    }
}

// Sets `values` to the variances up to t of the candidates of `channel`. Cost: one turn for each.
fn vary(channel: Channel<'_>, values: &mut [f64])
    requires { length values.old ≡ length channel.candidates.now }
    ensures { values.new ≡ tab (variance_at channel.entry) (length values.old) }
{
    let Channel {
        sums,
        squares,
        candidates,
        sum,
        squared,
        t,
    } = channel;
    for (j, value) in values.iter_mut().enumerate() {
        let length = length_of(candidates[j], t);
        let segment = Segment {
            length,
            sum: sum - sums[j],
            sum_of_squares: squared - squares[j],
        };
        *value = raised(l2_cost(segment) / length);
    }
}

// Adds a cost to the weight of each candidate of `channel`: its length up to t times its logarithm. Cost:
// one turn for each.
fn put(channel: Channel<'_>, logarithms: &[f64], weights: &mut [f64])
    requires { (length weights.old ≡ length channel.candidates.now) × (length logarithms.now ≡ length channel.candidates.now) }
    ensures { weights.new ≡ tab (with_logarithm channel.entry logarithms.now weights.old) (length weights.old) }
{
    let candidates = channel.candidates;
    let t = channel.t;
    for (j, weight) in weights.iter_mut().enumerate() {
        *weight += length_of(candidates[j], t) * logarithms[j];
    }
}

// Adds the Normal costs up to t in `channel` to the weights of its candidates. What `values` held, as
// many floats, does not matter.
fn add_block(channel: Channel<'_>, values: &mut [f64], weights: &mut [f64])
    requires { (length weights.old ≡ length channel.candidates.now) × (length values.old ≡ length channel.candidates.now) }
    ensures { weights.new ≡ tab (with_cost Normal channel.entry weights.old) (length weights.old) }
{
    vary(channel, values);
    ln_each(values);
    put(channel, values, weights);
}

// How many of `old` candidates the block has that begins with the candidate `first`: 32, or what is
// left.
fn block_size(first: usize, old: usize) -> usize
    requires { first < old }
    ensures { (0 < result) × (result ≤ 32) × (first + result ≤ old) }
{
    if old - first < 32 {
        return old - first;
    }
    32
}

// Adds the Normal costs up to t in `channel` to the weights of its candidates. Cost: one turn for every
// 32 candidates.
pub(crate) fn add_normal(channel: Channel<'_>, weights: &mut [f64])
    requires { length weights.old ≡ length channel.candidates.now }
    ensures { weights.new ≡ tab (with_cost Normal channel.entry weights.old) (length weights.old) }
{
    let mut values = [0.0; 32];
    let old = weights.len();
    let mut first = 0;
    // Not a for: a turn takes a block, and chunks_mut would leave nothing known of the weights.
    while first < old {
        let size = block_size(first, old);
        add_block(
            channel.rows(first, size),
            &mut values[..size],
            &mut weights[first..first + size],
        );
        first += size;
    }
}
