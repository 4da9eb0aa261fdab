// The first strict minimum of totals, one candidate after another.
ghost use Rattle.std.specs.Prelude.{◌≡◌};
ghost use Rattle.search_rules.specs.Minimum.{none_yet, better_of};

use crate::Best;

// The best before the first candidate: infinity, and 0 for the predecessor where no total is below that.
pub fn none_yet() -> Best
    ensures { result ≡ none_yet }
{
    Best {
        cost: f64::INFINITY,
        tau: 0,
    }
}

// The candidate `tau` with its `total` where that is below the lowest so far, and `best` otherwise: a
// NaN is not below it, nor is an equal total.
#[tactic(auto, unfolding(crate::specs::Minimum::better_of))]
pub fn better(best: Best, total: f64, tau: usize) -> Best
    ensures { result ≡ better_of best total tau }
{
    if total < best.cost {
        Best { cost: total, tau }
    } else {
        best
    }
}
