// One reading's step.
ghost use Rattle.std.specs.Prelude.{◌≡◌, true};
ghost use Rattle.floats.specs.Numbers.{◌+ᶠ◌, ◌-ᶠ◌, ◌<ᶠ◌, +0};
ghost use Rattle.floats.specs.MaxMin.{larger};
ghost use Rattle.cusum.specs.Chart.{moved, step_of};

use crate::{Cusum, CusumResult};
use charts::{Observation, Side};

// `sum` less the allowance `k`, and 0 where that is not above 0. The difference is no negative zero, as
// `k` is above 0, so that this is the larger of the two, and one instruction.
fn less(sum: f64, k: f64) -> f64
    requires { +0 <ᶠ k ≡ true }
    ensures { result ≡ larger (sum -ᶠ k) +0 }
{
    let left = sum - k;
    if 0.0 < left { left } else { 0.0 }
}

// The record of the reading `index`, which lies `z` times sigma from the target, after the record
// `before`.
fn moved(chart: Cusum, before: CusumResult, index: Observation, z: f64) -> CusumResult
    ensures { result ≡ moved chart index (larger (before.s_upper +ᶠ z -ᶠ chart.k) +0) (larger (before.s_lower -ᶠ z -ᶠ chart.k) +0) }
{
    let upper = before.s_upper + z;
    let lower = before.s_lower - z;
    if (0.0 < chart.k) & (0.0 < chart.h) {
        let s_upper = less(upper, chart.k);
        let s_lower = less(lower, chart.k);
        // The second test is asked from the other side, since two of one kind are compiled to one of
        // the larger sum, which keeps the sums waiting.
        let side = charts::side_of(chart.h < s_upper, !(s_lower <= chart.h));
        return CusumResult {
            s_upper,
            s_lower,
            side,
            index,
        };
    }
    let s_upper = floats::max(upper - chart.k, 0.0);
    let s_lower = floats::max(lower - chart.k, 0.0);
    let side = charts::side_of(chart.h < s_upper, chart.h < s_lower);
    CusumResult {
        s_upper,
        s_lower,
        side,
        index,
    }
}

// The record of the reading `x` at `index`, from the sums of the record `before`. A gap carries them
// forward.
pub(crate) fn step(chart: Cusum, before: CusumResult, index: Observation, x: f64) -> CusumResult
    ensures { result ≡ step_of chart before index x }
{
    if floats::finite(x) {
        moved(chart, before, index, (x - chart.target) / chart.sigma)
    } else {
        CusumResult {
            s_upper: before.s_upper,
            s_lower: before.s_lower,
            side: Side::None,
            index,
        }
    }
}
