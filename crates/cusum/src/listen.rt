// A fresh chart that is fed one level, and the reading at which a sum is first above h.
ghost use Rattle.std.specs.Prelude.{◌≡◌, Ok};
ghost use Rattle.refusals.specs.Said.{answered};
ghost use Rattle.charts.specs.Hearing.{heard_as};
ghost use Rattle.cusum.specs.RunLength.{sum_of, heard};

use crate::step::step;
use crate::{Cusum, CusumResult};
use charts::{Chart, Observation, Sum};
use refusals::MAX_READINGS;

// The sum `asked` of the record `after`.
fn sum_of(asked: Sum, after: CusumResult) -> f64
    ensures { result ≡ sum_of asked after }
{
    match asked {
        Sum::Upper => after.s_upper,
        Sum::Lower => after.s_lower,
    }
}

// The first of 4,096 readings of `level` after which the sum `asked` is above h. Cost: one step for each
// reading up to that one.
pub(crate) fn listen(chart: Cusum, level: f64, asked: Sum) -> Option<usize>
    ensures { heard_as (Ok result) ≡ answered (heard chart level asked) }
{
    let mut shown = chart.start().shown;
    for reading in 0..MAX_READINGS {
        shown = step(chart, shown, Observation(reading), level);
        if chart.h < sum_of(asked, shown) {
            return Some(reading + 1);
        }
    }
    None
}
