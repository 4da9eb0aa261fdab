// Brackets of bit patterns around the value of a rank in a list, whose values are only counted and never
// put in order.
ghost use Rattle.std.specs.Prelude.{◌-◌, ◌≤◌, ◌<◌};
ghost use Rattle.medians.specs.Inner.Ranks.{Around};

use crate::Bracket;
use crate::partition::count_below;

// The part of the bracket `b` below `pattern`, or the part that begins with it: the one in which the
// value of the rank `place` in `run` lies. Cost: one pass over `run`.
fn split(run: &[f64], place: usize, b: Bracket, pattern: u64) -> Bracket
    requires { Around run.now place b × (b.low < pattern) × (pattern < b.high) }
    ensures { Around run.now place result × (result.high - result.low < b.high - b.low) }
{
    if count_below(run, floats::from_bits(pattern)) <= place {
        return Bracket {
            low: pattern,
            high: b.high,
        };
    }
    Bracket {
        low: b.low,
        high: pattern,
    }
}

// The bracket `start`, around the value of the rank `place` in `run`, halved until it has one pattern.
// Cost: at most 63 turns, each one pass over `run`, whatever its order.
pub(crate) fn narrowed(run: &[f64], place: usize, start: Bracket) -> Bracket
    requires { Around run.now place start }
    ensures { Around run.now place result × (result.high - result.low ≤ 1) }
{
    let mut b = start;
    while 1 < b.high - b.low {
        b = split(run, place, b, b.low + (b.high - b.low) / 2);
    }
    b
}
