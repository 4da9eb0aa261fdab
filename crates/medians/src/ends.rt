// The values next to a pivot: the largest below it and the smallest above it, and by them the value of a
// rank where that is the pivot's or next to it.
ghost use Rattle.std.specs.Prelude.{◌≡◌, true, ◌+◌, ◌≤◌, ◌<◌, length, Bool, Float};
ghost use Rattle.medians.specs.Inner.Ranks.{ranked_of, Middle};
ghost use Rattle.medians.specs.Inner.Rounds.{Computes, Compares, Strict, Counted, Nearest, across};

use crate::magnitudes::Magnitudes;
use crate::partition::counts_at;
use crate::pivot::{Pivot, choose};
use crate::rank::ranked;
use crate::{Counts, Middles, Ranks};

// Of the values of `run` on one `side` of a pivot the one that no other is `nearer` than; `start` where
// there is none. A value on the other side counts as `start`, with no branch: `filter` and `fold` took
// 2.5 times as long on values without order. Cost: one turn for each value.
fn nearest<S: Fn(f64) -> bool, N: Fn(f64, f64) -> bool>(
    run: &[f64],
    start: f64,
    side: S,
    nearer: N,
) -> f64
    requires sides { S.IsAlwaysCallable side }
    requires orders { N.IsAlwaysCallable nearer }
    ensures { (p : Float → Bool) (q : Float → Float → Bool) → Computes (S.post side) p → Compares (N.post nearer) q → Strict q → Nearest p q start run.now (length run.now) result }
{
    let mut best = start;
    for value in run {
        let candidate = choose(side(*value), *value, start);
        best = choose(nearer(candidate, best), candidate, best);
    }
    best
}

// A run with a pivot `x` in it, at which there are `counts`.
#[derive(Clone, Copy)]
pub(crate) struct Cut<'a> {
    run: Magnitudes<'a>,
    pub(crate) x: Pivot,
    pub(crate) counts: Counts,
    pub(crate) ghost counted: { Counted x.value run.values.now counts },
}

impl<'a> Cut<'a> {
    // The cut of `run` at a pivot near its middle. Cost: one pass over `run`.
    pub(crate) fn of(run: Magnitudes<'a>) -> Cut<'a>
        requires { 0 < length run.values.now }
        ensures { result.run.values.now ≡ run.entry.values.now }
    {
        let x = Pivot::of(run);
        let counts = counts_at(run.values, x.value);
        Cut { run, x, counts }
    }

    // Whether the pivot is one of the two values of `ranks`, or lies between them.
    pub(crate) fn is_across(self, ranks: Ranks) -> bool
        ensures { result ≡ across ranks self.entry.counts }
    {
        (ranks.first < self.counts.upto) & (self.counts.below <= ranks.second)
    }

    // The value of the rank `rank`: the pivot or the one next below it or above it, which is infinity or
    // NaN where no finite value is above.
    fn at_rank(self, rank: usize) -> f64
        requires { (self.counts.below ≤ rank + 1) × (rank ≤ self.counts.upto) × (rank < length self.run.values.now) }
        ensures { result ≡ ranked_of self.entry.run.values.now rank }
    {
        let x = self.x.value;
        let values = self.run.values;
        if rank < self.counts.below {
            return nearest(values, 0.0, |value| value < x, |value, best| best < value);
        }
        if rank < self.counts.upto {
            return x;
        }
        let infinity = f64::INFINITY;
        let next = nearest(
            values,
            infinity,
            |value| x < value,
            |value, best| value < best,
        );
        if next < infinity {
            return next;
        }
        ranked(self.run, rank)
    }

    // The two values of `ranks`, where the pivot is one of them or lies between them: each is the pivot or
    // next to it.
    pub(crate) fn next_to(self, ranks: Ranks) -> Middles
        requires { (ranks.second < length self.run.values.now) × (across ranks self.counts ≡ true) }
        ensures { Middle self.entry.run.values.now ranks.first ranks.second result }
    {
        Middles {
            low: self.at_rank(ranks.first),
            high: self.at_rank(ranks.second),
        }
    }
}
