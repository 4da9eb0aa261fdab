// The first strict minimum of the candidates' totals, each its weight plus the penalty.
ghost use Rattle.std.specs.Prelude.{◌≡◌, ◌||◌, ◌+◌, ◌≤◌, ◌<◌, length, get_or};
ghost use Rattle.std.specs.Float.{nan};
ghost use Rattle.floats.specs.Numbers.{◌+ᶠ◌, ◌<ᶠ◌};
ghost use Rattle.inequality.specs.Inner.Weights.{lowest_by};

use search_rules::{Best, better, none_yet};

// Whether the total `weights[place] + penalty` is below `cost`.
fn total_below(weights: &[f64], place: usize, penalty: f64, cost: f64) -> bool
    requires { place < length weights.now }
    ensures { result ≡ (get_or weights.now place nan +ᶠ penalty <ᶠ cost) }
{
    weights[place] + penalty < cost
}

// Whether one of the four weights `weights[place..place + 4]` is below `cost` with `penalty` added, with
// no branch.
fn one_below(weights: &[f64], place: usize, penalty: f64, cost: f64) -> bool
    requires { place + 4 ≤ length weights.now }
    ensures { result ≡ (((get_or weights.now place nan +ᶠ penalty <ᶠ cost || get_or weights.now (place + 1) nan +ᶠ penalty <ᶠ cost) || get_or weights.now (place + 2) nan +ᶠ penalty <ᶠ cost) || get_or weights.now (place + 3) nan +ᶠ penalty <ᶠ cost) }
{
    total_below(weights, place, penalty, cost)
        | total_below(weights, place + 1, penalty, cost)
        | total_below(weights, place + 2, penalty, cost)
        | total_below(weights, place + 3, penalty, cost)
}

// The best of the first `to` of `candidates`, from `best`, that of the first `from`. Cost: one turn for
// each candidate in between.
fn better_to(
    weights: &[f64],
    candidates: &[usize],
    penalty: f64,
    from: usize,
    to: usize,
    best: Best,
) -> Best
    requires { (from ≤ to) × (to ≤ length weights.now) × (length candidates.now ≡ length weights.now) × (best ≡ lowest_by penalty weights.now candidates.now from) }
    ensures { result ≡ lowest_by penalty weights.now candidates.now to }
{
    let mut found = best;
    for j in from..to {
        found = better(found, weights[j] + penalty, candidates[j]);
    }
    found
}

// The best of the first `j` + 4 of `candidates`, from `best`, that of the first `j`. Most of the time no
// total is below it, and then one branch stands for four, each of which would wait for the one before.
fn better_of_four(weights: &[f64], candidates: &[usize], penalty: f64, j: usize, best: Best) -> Best
    requires { (j + 4 ≤ length weights.now) × (length candidates.now ≡ length weights.now) × (best ≡ lowest_by penalty weights.now candidates.now j) }
    ensures { result ≡ lowest_by penalty weights.now candidates.now (j + 4) }
{
    if one_below(weights, j, penalty, best.cost) {
        return better_to(weights, candidates, penalty, j, j + 4, best);
    }
    best
}

// The best of `candidates` by their `weights` and the `penalty`. Cost: one turn for every four.
pub(crate) fn lowest(weights: &[f64], candidates: &[usize], penalty: f64) -> Best
    requires { length candidates.now ≡ length weights.now }
    ensures { result ≡ lowest_by penalty weights.now candidates.now (length weights.now) }
{
    let old = weights.len();
    let mut best = none_yet();
    let mut j = 0;
    // Not a for: a turn takes four, and where the loop ends the rest begins.
    while j + 4 <= old {
        best = better_of_four(weights, candidates, penalty, j, best);
        j += 4;
    }
    better_to(weights, candidates, penalty, j, old, best)
}
