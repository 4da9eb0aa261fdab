// The run length of a CUSUM chart, asked for in numbers.
ghost use Rattle.std.specs.Prelude.{◌≡◌};
ghost use Rattle.c_answers.specs.Told.{counted_of, sum_told, run_length_of};

use crate::{Counted, heard};
use charts::Sum;
use cusum::Cusum;
use refusals::Refusal;

// The sum that the number `asked` stands for, 0 the upper and 1 the lower; refusal 10 for another number.
// Not a `TryFrom`: the number is C's, and `Sum` is of a crate that knows none of them.
#[tactic(auto, unfolding(crate::specs::Told::asked_sum))]
fn sum_of(asked: u32) -> Result<Sum, Refusal>
    ensures { result ≡ sum_told asked }
{
    match asked {
        0 => Ok(Sum::Upper),
        1 => Ok(Sum::Lower),
        _ => Err(Refusal::Form),
    }
}

// The reading at which a fresh chart with the settings of `chart` first hears `level` by the sum
// `asked`, 0 upper or 1 lower, and 0 where it does not; refusal 10 for another number, tried first.
// Cost: one step for each reading up to that one.
pub fn run_length(chart: Cusum, level: f64, asked: u32) -> Counted
    ensures { result ≡ counted_of (run_length_of chart level asked) }
{
    match sum_of(asked) {
        Ok(sum) => heard(chart.run_length(level, sum)),
        Err(refusal) => heard(Err(refusal)),
    }
}
