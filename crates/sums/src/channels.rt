// The running sums of all channels of a run, one channel after the other in an area.
ghost use Rattle.std.specs.Prelude.{◌≡◌, ◌+◌, ◌*◌, ◌≤◌, length};
ghost use Rattle.refusals.specs.Limits.{max_channels, max_readings};
ghost use Rattle.areas.specs.Parts.{Frame};
ghost use Rattle.sums.specs.Sums.{mean_of, Summed};
ghost use Rattle.sums.specs.EachChannel.{sums_fit, Sums, RanEach};

use crate::running::run_on;
use crate::total::mean;
use readings::channel_of;
use refusals::{MAX_CHANNELS, MAX_READINGS};

// Whether a run of `run` readings has `channels` channels of `n` readings, within the limits of a call,
// and an area of `size` floats has room for their sums. The limits are tested first, so that no product
// wraps.
#[tactic(auto, using(crate::proofs::ChannelLaws::sums_small, readings::proofs::ChannelLaws::small_product), unfolding(crate::specs::EachChannel::sums_fit))]
fn sums_fit(run: usize, n: usize, channels: usize, size: usize) -> bool
    ensures { result ≡ sums_fit run n channels size }
{
    channels <= MAX_CHANNELS
        && n <= MAX_READINGS
        && channels * n <= run
        && channels * (2 * (n + 1)) <= size
}

// Writes the running sums of `signal` about its own mean to `area` at `place`, and those of the squares
// behind them. Cost: two turns for each reading, one for the mean and one for the sums.
#[tactic(auto, using(crate::proofs::ChannelLaws::summed_about))]
fn about_its_mean(signal: &[f64], area: &mut [f64], place: usize)
    requires { place + 2 * (length signal.now + 1) ≤ length area.old }
    ensures { Summed signal.now (mean_of signal.now) (length signal.now) area.old area.new place }
{
    let centre = mean(signal);
    run_on(signal, centre, area, place);
}

// Writes the running sums of the `channels` channels of `run`, of `n` readings each, to the front of
// `area`. Cost: one turn for each channel.
fn one_after_the_other(run: &[f64], n: usize, channels: usize, area: &mut [f64])
    requires { (channels ≤ max_channels) × (n ≤ max_readings) × (channels * n ≤ length run.now) × (channels * (2 * (n + 1)) ≤ length area.old) }
    ensures { Sums run.now n channels area.new × Frame area.old area.new 0 (channels * (2 * (n + 1))) }
{
    let mut place = 0;
    for c in 0..channels {
        about_its_mean(channel_of(run, channels, n, c), area, place);
        place += 2 * (n + 1);
    }
}

// Writes the running sums of the `channels` channels of `run`, of `n` readings each and each about its
// own mean, to the front of `area`: channel after channel, its sums and then those of the squares. Where
// `run` has fewer readings than that, `area` has no room for the sums, or a limit of a call is passed,
// `area` stays as it was. `run`, `n` and `channels` stand apart, as in `readings::channel_of`, so that
// no function here holds a reference.
#[tactic(auto, using(crate::proofs::ChannelLaws::fit, crate::proofs::ChannelLaws::each_written, crate::proofs::ChannelLaws::each_unchanged))]
pub fn channel_sums(run: &[f64], n: usize, channels: usize, area: &mut [f64])
    ensures { RanEach run.now n channels area.old area.new }
{
    if sums_fit(run.len(), n, channels, area.len()) {
        one_after_the_other(run, n, channels, area);
    }
}
