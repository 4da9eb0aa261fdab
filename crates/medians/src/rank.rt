// The value of a rank in a list, found by its bit pattern without putting the list in order.
ghost use Rattle.std.specs.Prelude.{◌≡◌, ◌<◌, length};
ghost use Rattle.medians.specs.Inner.Ranks.{numbers, ranked_of, Middle};

use crate::magnitudes::Magnitudes;
use crate::narrow::narrowed;
use crate::partition::{count_below, count_of};
use crate::{Bracket, Middles, Ranks};

// How many values of `run` are not NaN.
fn count_numbers(run: &[f64]) -> usize
    ensures { result ≡ numbers run.now }
{
    count_of(run, |value| value == value)
}

// The value of the rank `place` in `run`, of whose values none has a sign. Cost: at most 65 passes over
// `run`, whatever its order.
pub(crate) fn ranked(run: Magnitudes, place: usize) -> f64
    requires { place < length run.values.now }
    ensures { result ≡ ranked_of run.entry.values.now place }
{
    if count_below(run.values, f64::INFINITY) <= place {
        if count_numbers(run.values) <= place {
            return f64::NAN;
        }
        return f64::INFINITY;
    }
    let all = Bracket {
        low: 0,
        high: 0x7ff0_0000_0000_0000,
    };
    floats::from_bits(narrowed(run.values, place, all).low)
}

// The values of `ranks` in `run`, each found by itself. Cost: that of finding one value by its rank, or two.
pub(crate) fn one_by_one(run: Magnitudes, ranks: Ranks) -> Middles
    requires { ranks.second < length run.values.now }
    ensures { Middle run.entry.values.now ranks.first ranks.second result }
{
    let high = ranked(run, ranks.second);
    if ranks.first == ranks.second {
        return Middles { low: high, high };
    }
    let low = ranked(run, ranks.first);
    Middles { low, high }
}
