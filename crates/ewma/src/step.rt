// One reading's record.
ghost use Rattle.std.specs.Prelude.{◌≡◌};
ghost use Rattle.ewma.specs.Settled.{step_by};

use crate::{Ewma, EwmaResult};
use charts::{Observation, Side};

// The record of the reading `x` at `index`, with limits that lie `half_width` from the target, from the
// statistic of the record `before`. A gap carries it forward.
pub(crate) fn step_by(
    chart: Ewma,
    half_width: f64,
    before: EwmaResult,
    index: Observation,
    x: f64,
) -> EwmaResult
    ensures { result ≡ step_by chart half_width before index x }
{
    let ucl = chart.target + half_width;
    let lcl = chart.target - half_width;
    if floats::finite(x) {
        let ewma = chart.lambda * x + (1.0 - chart.lambda) * before.ewma;
        let side = charts::side_of(ucl < ewma, ewma < lcl);
        EwmaResult {
            ewma,
            ucl,
            lcl,
            side,
            index,
        }
    } else {
        EwmaResult {
            ewma: before.ewma,
            ucl,
            lcl,
            side: Side::None,
            index,
        }
    }
}
