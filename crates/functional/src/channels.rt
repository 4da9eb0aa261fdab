// What the search works out of each channel before its first step: the running sums about the channel's
// mean, and its range about the same mean. Each mean is worked out once.
ghost use Rattle.std.specs.Prelude.{◌≡◌, ◌+◌, ◌*◌, ◌≤◌, ◌<◌, length};
ghost use Rattle.refusals.specs.Limits.{max_readings};
ghost use Rattle.search_rules.specs.Limits.{functional_channels};
ghost use Rattle.floats.specs.Numbers.{+0};
ghost use Rattle.readings.specs.Channels.{channel_of};
ghost use Rattle.ranges.specs.Ranges.{range_of, about};
ghost use Rattle.sums.specs.Sums.{mean_of, Summed};
ghost use Rattle.sums.specs.EachChannel.{Sums};
ghost use Rattle.search_rules.specs.Functional.{range_box};

use candidate::Candidate;
use ranges::{Range, range_about, range_of};
use readings::channel_of;
use sums::{cumulative_sums, mean};

// Writes the running sums of channel `k` about its mean at `place` of `floats`, and those of the squares
// behind them; gives the range of the channel about that mean. Cost: three turns for each reading of the
// channel.
fn sum_channel(
    run: &[f64],
    channels: usize,
    n: usize,
    k: usize,
    floats: &mut [f64],
    place: usize,
) -> Range
    requires { (k < channels) × (channels ≤ functional_channels) × (n ≤ max_readings) × (channels * n ≤ length run.now) × (place + 2 * (n + 1) ≤ length floats.old) }
    ensures { (result ≡ about (range_of (channel_of run.now n k)) (mean_of (channel_of run.now n k))) × Summed (channel_of run.now n k) (mean_of (channel_of run.now n k)) n floats.old floats.new place }
{
    let signal = channel_of(run, channels, n, k);
    let centre = mean(signal);
    cumulative_sums(signal, centre, floats, place);
    let range = range_of(signal);
    range_about(range, centre)
}

// Writes the running sums of the channels at the front of `floats`, one channel after the other, and
// gives the box of their ranges, in which every segment mean lies; its numbers are 0 for a second
// channel that is not there. Minimum length and penalty do not matter to the box.
pub(crate) fn sum_channels(run: &[f64], n: usize, channels: usize, floats: &mut [f64]) -> Candidate
    requires { (1 ≤ channels) × (channels ≤ functional_channels) × (n ≤ max_readings) × (channels * n ≤ length run.now) × (channels * (2 * (n + 1)) ≤ length floats.old) }
    ensures { (result ≡ range_box (record { run = run.entry.now; n = n; channels = channels; m = 0; penalty = +0 })) × Sums run.entry.now n channels floats.new }
{
    // No loop over the channels: the second one's numbers are 0 where it is not there.
    let x = sum_channel(run, channels, n, 0, floats, 0);
    if channels == 1 {
        return Candidate {
            lo: [x.lo, 0.0],
            hi: [x.hi, 0.0],
        };
    }
    let y = sum_channel(run, channels, n, 1, floats, 2 * (n + 1));
    Candidate {
        lo: [x.lo, y.lo],
        hi: [x.hi, y.hi],
    }
}
