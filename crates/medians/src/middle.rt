// The median of a channel's differences, from the two middle ones.
ghost use Rattle.std.specs.Prelude.{◌≡◌, ◌+◌, ◌<◌, length, replicate};
ghost use Rattle.floats.specs.Numbers.{+0, ◌-ᶠ◌};
ghost use Rattle.floats.specs.Finite.{abs};
ghost use Rattle.medians.specs.Median.{differences, median, fits_run, Found};

use crate::pivot::upper;
use crate::rounds::middles;

// The magnitude of the difference `x - y`: the difference or its opposite, of equal ones the second,
// which is never -0.
fn apart(x: f64, y: f64) -> f64
    ensures { result ≡ abs (x -ᶠ y) }
{
    let step = x - y;
    upper(0.0 - step, step)
}

// Sets `run` to the magnitudes of the differences of `channel`. Cost: one turn for each difference.
fn difference(channel: &[f64], run: &mut [f64])
    requires { length run.old + 1 ≡ length channel.now }
    ensures { run.new ≡ differences channel.now }
{
    for i in 0..run.len() {
        run[i] = apart(channel[i + 1], channel[i]);
    }
}

// The median of the differences of `channel`, at least one, worked out in `run`, which is +0 afterwards.
fn worked_out(channel: &[f64], run: &mut [f64]) -> f64
    requires { (length run.old + 1 ≡ length channel.now) × (0 < length run.old) }
    ensures { (result ≡ median (differences channel.now)) × (run.new ≡ replicate (length run.old) +0) }
{
    difference(channel, run);
    let two = middles(run);
    run.fill(0.0);
    if run.len() % 2 == 1 {
        return two.high;
    }
    0.5 * (two.low + two.high)
}

// Whether an area of `places` floats has exactly one for each difference of `readings` readings, and at
// least one.
fn fits(places: usize, readings: usize) -> bool
    ensures { result ≡ fits_run places readings }
{
    if 0 < places {
        if places < readings {
            return readings - places == 1;
        }
    }
    false
}

// The median of the magnitudes of the differences of `channel`, worked out in `run`, which has one float
// for each difference and is +0 afterwards; where it does not fit, NaN, and `run` stays. Cost: some six
// passes over `run`, and at most 164: one to write the differences, 32 in rounds, at most 65 for each of
// the two middle values where 16 rounds leave more than 8 values, and one to clear `run`.
pub fn median_difference(channel: &[f64], run: &mut [f64]) -> f64
    ensures { Found channel.now run.old run.new result }
{
    if fits(run.len(), channel.len()) {
        return worked_out(channel, run);
    }
    f64::NAN
}
