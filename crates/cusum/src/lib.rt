// The tabular CUSUM chart of `cusum.rs`: two sums, of how far the readings lie above the target and
// below it, in units of sigma and less the allowance k at each reading, never under zero; a reading
// signals where a sum is above the decision interval h, and its side says which (rules 5.3 and 5.6).
//
// Every call ends with an answer or a refusal, and asks nothing of its caller: settings are checked
// when they are used. `specs/Chart` has the recurrences that the records equal, and
// `proofs/Promise` the promise that a lasting shift is signalled on its side.
#![tactic(auto)]

mod chart;
mod listen;
mod step;

ghost use Rattle.std.specs.Prelude.{◌≡◌};
ghost use Rattle.cusum.specs.Chart.{new_of, with_params, analyzed, signalled};
ghost use Rattle.charts.specs.Hearing.{heard_as};
ghost use Rattle.cusum.specs.RunLength.{run_length};

use charts::{Chart, Observation, Side, Sum};
use listen::listen;
use refusals::Refusal;

#[derive(Clone, Copy, PartialEq, Debug)]
pub struct Cusum {
    pub target: f64,
    pub sigma: f64,
    pub k: f64,
    pub h: f64,
}

// The record of the observation `index`: both sums after it, and the side on which they are above h.
#[derive(Clone, Copy, PartialEq, Debug)]
pub struct CusumResult {
    pub s_upper: f64,
    pub s_lower: f64,
    pub side: Side,
    pub index: Observation,
}

// What goes from reading to reading: nothing beside the last record.
#[derive(Clone, Copy, PartialEq, Debug)]
pub struct State {
    pub shown: CusumResult,
}

impl Cusum {
    // A chart about `target` in units of `sigma`, with the allowance 0.5 and the decision interval 5.
    pub fn new(target: f64, sigma: f64) -> Cusum
        ensures { result ≡ new_of target sigma }
    {
        Cusum {
            target,
            sigma,
            k: 0.5,
            h: 5.0,
        }
    }

    pub fn with_params(target: f64, sigma: f64, k: f64, h: f64) -> Cusum
        ensures { result ≡ with_params target sigma k h }
    {
        Cusum {
            target,
            sigma,
            k,
            h,
        }
    }

    // Writes a record for each reading of `data` to the front of `records`, and leaves the others; a
    // refusal changes nothing. Cost: one step for each reading.
    #[tactic(auto, unfolding(crate::specs::Chart::tests_of))]
    pub fn analyze(self, data: &[f64], records: &mut [CusumResult]) -> Result<usize, Refusal>
        ensures { (result, records.new) ≡ analyzed self «data».now records.old }
    {
        charts::analyze(self, data, records)
    }

    // Writes the index of each reading of `data` that signals to the front of `points`, which needs
    // room for as many as there are readings, and leaves the others; a refusal changes nothing. Cost:
    // one step for each reading.
    #[tactic(auto, unfolding(crate::specs::Chart::tests_of))]
    pub fn signal_points(self, data: &[f64], points: &mut [usize]) -> Result<usize, Refusal>
        ensures { (result, points.new) ≡ signalled self «data».now points.old }
    {
        charts::signal_points(self, data, points)
    }

    // The first reading, 1 to 4,096, at which a fresh chart that is fed only `level` has the sum `asked`
    // above h, or none. Settings that are out of range are refused first, and then a `level` that is not
    // finite. Cost: one step for each reading up to that one.
    pub fn run_length(self, level: f64, asked: Sum) -> Result<Option<usize>, Refusal>
        ensures { heard_as result ≡ run_length self level asked }
    {
        charts::tested(self.in_range())?;
        if !floats::finite(level) {
            return Err(Refusal::NonFinite {
                channel: 0,
                index: 0,
            });
        }
        Ok(listen(self, level, asked))
    }
}
