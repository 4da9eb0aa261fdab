// The penalty of a change, resolved.
ghost use Rattle.std.specs.Prelude.{◌≡◌};
ghost use Rattle.costs.specs.Penalties.{bic_penalty, penalty_of};

use crate::{CostFunction, Penalty};
use elementary::ln;
use std::num::nearest_u64_to_f64;

// The penalty by the Bayesian information criterion, for `channels` channels of `n` readings: ln(n)
// times their noise variances' sum, `noise`, if `cost` is L2, and 2 ln(n) times `channels` if it is
// Normal.
fn bic(cost: CostFunction, n: usize, channels: f64, noise: f64) -> f64
    ensures { result ≡ bic_penalty cost n channels noise }
{
    let logarithm = ln(nearest_u64_to_f64(n as u64));
    match cost {
        CostFunction::L2 => 1.0 * logarithm * noise,
        CostFunction::Normal => 2.0 * logarithm * channels,
    }
}

// The penalty of a change in `channels` channels of `n` readings, whose noise variances add up to
// `noise`: a custom `penalty`'s value times `channels`, or that of the Bayesian information criterion
// for `cost`.
#[tactic(auto, unfolding(crate::specs::Penalties::penalty_of))]
pub fn resolve_penalty(
    penalty: Penalty,
    cost: CostFunction,
    n: usize,
    channels: usize,
    noise: f64,
) -> f64
    ensures { result ≡ penalty_of penalty cost n channels noise }
{
    let count = nearest_u64_to_f64(channels as u64);
    match penalty {
        Penalty::Bic => bic(cost, n, count, noise),
        Penalty::Custom(value) => value * count,
    }
}
