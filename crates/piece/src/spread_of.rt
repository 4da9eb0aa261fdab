// The spread of a piece by its L2 cost (rule 6.2): a variance, as sheets work it out.
ghost use Rattle.std.specs.Prelude.{◌≡◌};
ghost use Rattle.piece.specs.Spread.{not_below_zero, spread_of};

use std::num::nearest_u64_to_f64;

// `cost`, or +0 where it is below 0: rounding can bring that of nearly equal readings there. A NaN is
// not below 0, and stays.
#[tactic(auto, unfolding(crate::specs::Spread::not_below_zero))]
fn not_below_zero(cost: f64) -> f64
    ensures { result ≡ not_below_zero cost }
{
    if cost < 0.0 {
        return 0.0;
    }
    cost
}

// The spread of `count` readings whose L2 cost is `cost`: the cost, or +0 where it is below 0, divided by
// `count` less one. A single reading has none, since that leaves nothing to divide by.
#[tactic(auto, using(crate::proofs::PieceLaws::spread_of_few, crate::proofs::PieceLaws::spread_of_more))]
pub(crate) fn spread_of(count: usize, cost: f64) -> Option<f64>
    ensures { result ≡ spread_of count cost }
{
    if count < 2 {
        return None;
    }
    let others = nearest_u64_to_f64((count - 1) as u64);
    Some(not_below_zero(cost) / others)
}
