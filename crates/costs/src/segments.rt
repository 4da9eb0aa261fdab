// The cost of one segment of one channel.
ghost use Rattle.std.specs.Prelude.{◌≡◌};
ghost use Rattle.costs.specs.Costs.{l2_cost, normal_cost, cost_of};

use crate::{CostFunction, Segment};
use elementary::ln;

// The sum of the squares of the readings of `segment`, each less the segment's mean.
#[tactic(auto, unfolding(crate::specs::Costs::l2_cost))]
pub fn l2_cost(segment: Segment) -> f64
    ensures { result ≡ l2_cost segment }
{
    let mean = segment.sum / segment.length;
    segment.sum_of_squares - segment.length * mean * mean
}

// The number of the readings of `segment` times the logarithm of their variance. A variance at or below
// 0 counts as the smallest normal number, whose logarithm stands here as its bits.
fn normal_cost(segment: Segment) -> f64
    ensures { result ≡ normal_cost segment }
{
    let variance = l2_cost(segment) / segment.length;
    if variance <= 0.0 {
        segment.length * f64::from_bits(0xc086_232b_dd7a_bcd2)
    } else {
        segment.length * ln(variance)
    }
}

// The cost of `segment` by the cost function `cost`.
#[tactic(auto, unfolding(crate::specs::Costs::cost_of))]
pub fn segment_cost(cost: CostFunction, segment: Segment) -> f64
    ensures { result ≡ cost_of cost segment }
{
    match cost {
        CostFunction::L2 => l2_cost(segment),
        CostFunction::Normal => normal_cost(segment),
    }
}
