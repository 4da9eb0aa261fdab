// The sums of a piece about the channel's mean, in one pass: the running sums at its end less those at
// its start.
ghost use Rattle.std.specs.Prelude.{◌≡◌, ◌≤◌, length};
ghost use Rattle.std.specs.List.{fold};
ghost use Rattle.costs.specs.Costs.{segment_about};
ghost use Rattle.piece.specs.Inner.Running.{with_reading};

use costs::Segment;
use std::num::nearest_u64_to_f64;

// The sums of a channel's first readings, and of their squares, each less the channel's mean.
#[derive(Clone, Copy)]
struct Running {
    sum: f64,
    sum_of_squares: f64,
}

// Takes `readings`, each less `mean`, into the sums `before`. Cost: one turn for each reading.
fn advance(before: Running, readings: &[f64], mean: f64) -> Running
    ensures { result ≡ fold (with_reading mean) before readings.now }
{
    let mut sum = before.sum;
    let mut sum_of_squares = before.sum_of_squares;
    for reading in readings {
        let y = *reading - mean;
        sum += y;
        sum_of_squares += y * y;
    }
    Running {
        sum,
        sum_of_squares,
    }
}

// The segment of `channel[start..end]`: how many readings it has, and the sums of the readings less
// `mean` and of their squares. It takes the channel with both ends, and no slice, since the sums that rule
// 3.5 names begin at the channel's first reading. Cost: one turn for each reading up to `end`.
pub(crate) fn segment_of(channel: &[f64], mean: f64, start: usize, end: usize) -> Segment
    requires { (start ≤ end) × (end ≤ length channel.now) }
    ensures { result ≡ segment_about channel.now mean start end }
{
    let none = Running {
        sum: 0.0,
        sum_of_squares: 0.0,
    };
    let before = advance(none, &channel[..start], mean);
    let after = advance(before, &channel[start..end], mean);
    Segment {
        length: nearest_u64_to_f64((end - start) as u64),
        sum: after.sum - before.sum,
        sum_of_squares: after.sum_of_squares - before.sum_of_squares,
    }
}
