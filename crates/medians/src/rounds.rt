// The search for the two middle values: rounds that split what is left by a pivot, and the end.
ghost use Rattle.std.specs.Prelude.{◌≡◌, true, false, ◌≤◌, ◌<◌, length, take};
ghost use Rattle.std.specs.Float.{nan};
ghost use Rattle.medians.specs.Inner.Ranks.{Each, magnitude, itself, first_of, second_of, Middle};
ghost use Rattle.medians.specs.Inner.Rounds.{Counted, Standing, Remains, across, another};

use crate::ends::Cut;
use crate::few::put_in_order;
use crate::magnitudes::Magnitudes;
use crate::partition::keep;
use crate::pivot::Pivot;
use crate::rank::one_by_one;
use crate::{Counts, Left, Middles, Ranks};

// The most values that are put in order, and the most rounds.
const FEW: usize = 8;

const ROUNDS: usize = 16;

// Whether there is another round after `rounds` of them, where `size` values are left: more than a few,
// among which the second rank lies. The first round there always is: NaNs are given up in it.
fn goes_on(size: usize, ranks: Ranks, rounds: usize) -> bool
    ensures { result ≡ another size ranks rounds }
{
    (ranks.second < size) & (rounds < ROUNDS) & ((rounds < 1) | (FEW < size))
}

// The part of `run` that has both ranks, moved to the front: the values below the pivot `x`, at which
// there are `counts`, or those above it. The rest is given up, NaNs with it. Cost: one pass.
fn kept(run: &mut [f64], ranks: Ranks, counts: Counts, x: Pivot) -> Left
    requires { Standing run.old ranks × Counted x.value run.old counts × (across ranks counts ≡ false) }
    ensures { (result.size ≤ length run.new) × Remains run.old ranks.first ranks.second (take result.size run.new) result.ranks × Each itself (take result.size run.new) }
{
    let x = x.value;
    if ranks.second < counts.below {
        return Left {
            size: keep(run, |value| value < x),
            ranks,
        };
    }
    Left {
        size: keep(run, |value| x < value),
        ranks: Ranks {
            first: ranks.first - counts.upto,
            second: ranks.second - counts.upto,
        },
    }
}

// The two values where `run` has few left, which are numbers.
fn of_few(run: &mut [f64], ranks: Ranks) -> Middles
    requires { Standing run.old ranks × Each itself run.old }
    ensures { Middle run.old ranks.first ranks.second result }
{
    put_in_order(run);
    Middles {
        low: run[ranks.first],
        high: run[ranks.second],
    }
}

// The two values where no further round is: of few numbers by their order, of many by their patterns.
// Where fewer values are left than the second rank says the others were NaN, and it is one of those.
fn last(run: &mut [f64], ranks: Ranks) -> Middles
    requires { (ranks.second < length run.old → Standing run.old ranks) × (ranks.second < length run.old → length run.old ≤ 8 → Each itself run.old) }
    ensures { (ranks.second < length run.old → Middle run.old ranks.first ranks.second result) × (length run.old ≤ ranks.second → result.high ≡ nan) }
{
    if run.len() <= ranks.second {
        return Middles {
            low: f64::NAN,
            high: f64::NAN,
        };
    }
    if run.len() <= FEW {
        return of_few(run, ranks);
    }
    one_by_one(Magnitudes { values: run }, ranks)
}

// The two values of `ranks` in `run` after `rounds` rounds, from the first of which on it has numbers alone:
// a round leaves the part of it that has both, and the next goes on with that.
fn found(run: &mut [f64], ranks: Ranks, rounds: usize) -> Middles
    requires { (rounds ≤ 16) × Each magnitude run.old × (0 < rounds → Each itself run.old) }
    ensures { (ranks.second < length run.old → Middle run.old ranks.first ranks.second result) × (length run.old ≤ ranks.second → result.high ≡ nan) }
{
    if !goes_on(run.len(), ranks, rounds) {
        return last(run, ranks);
    }
    let cut = Cut::of(Magnitudes { values: run });
    if cut.is_across(ranks) {
        return cut.next_to(ranks);
    }
    let counts = cut.counts;
    let x = cut.x;
    let left = kept(run, ranks, counts, x);
    found(&mut run[..left.size], left.ranks, rounds + 1)
}

// The two middle values of `run`, whose values are given up. Cost: at most 16 rounds, each of at most
// two passes over what is left, and at the end four passes more, or at most 65 for each of the two. On
// values without order a round leaves about half.
pub(crate) fn middles(run: &mut [f64]) -> Middles
    requires { (0 < length run.old) × Each magnitude run.old }
    ensures { Middle run.old (first_of (length run.old)) (second_of (length run.old)) result }
{
    let size = run.len();
    let ranks = Ranks {
        first: (size - 1) / 2,
        second: size / 2,
    };
    found(run, ranks, 0)
}
