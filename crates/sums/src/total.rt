// The mean of a channel.
ghost use Rattle.std.specs.Prelude.{◌≡◌};
ghost use Rattle.sums.specs.Sums.{mean_of};

use std::num::nearest_u64_to_f64;

// The sum of the readings of `channel` from the index 0 up, over their number; NaN without readings.
// Cost: one turn for each reading.
pub fn mean(channel: &[f64]) -> f64
    ensures { result ≡ mean_of channel.now }
{
    let mut sum = 0.0;
    for reading in channel {
        sum += *reading;
    }
    sum / nearest_u64_to_f64(channel.len() as u64)
}
