// The exponentially weighted moving average chart of `ewma.rs`: a statistic that moves towards each
// reading by the weight lambda, with exact limits that widen with the place on the chart; a reading
// signals where the statistic is strictly outside them, and its side says on which (rule 5.4). Which
// place a reading has is said by the edition of the rule, which is one of the settings (rule 5.7).
//
// Every call ends with an answer or a refusal, and asks nothing of its caller: settings are checked
// when they are used. `specs/Chart` has the recurrences that the records equal, `proofs/Editions` what
// holds of both editions and of each alone, and `proofs/Sides` what is known of the records' sides: that
// of an accepted chart is never both.
#![tactic(auto)]

mod chart;
mod resting;
mod step;

ghost use Rattle.std.specs.Prelude.{◌≡◌};
ghost use Rattle.ewma.specs.Chart.{new_of, with_params, analyzed, signalled};

use charts::{Observation, Place, Side};
use refusals::Refusal;

// Which place on the chart a reading has: in the first edition, the Rust's, its index and 1, so that a
// gap uses up a place; in the second the number of finite readings up to and with it.
#[derive(Clone, Copy, PartialEq, Eq, Debug)]
pub enum Edition {
    First,
    Second,
}

#[derive(Clone, Copy, PartialEq, Debug)]
pub struct Ewma {
    pub target: f64,
    pub sigma: f64,
    pub lambda: f64,
    pub l_factor: f64,
    pub edition: Edition,
}

// The record of the observation `index`: the statistic `ewma` after it, the limits `ucl` and `lcl` at
// its place, and the side on which the statistic is outside them.
#[derive(Clone, Copy, PartialEq, Debug)]
pub struct EwmaResult {
    pub ewma: f64,
    pub ucl: f64,
    pub lcl: f64,
    pub side: Side,
    pub index: Observation,
}

// Where the limits settle: at the place `from` and later ones they lie `half_width` from the target.
#[derive(Clone, Copy, PartialEq, Debug)]
pub struct Settled {
    pub from: usize,
    pub half_width: f64,
}

// Where a chart stands: at the place `place`, the last reading's, its limits lie `half_width` from the
// target; and `settled` says where they settle.
#[derive(Clone, Copy, PartialEq, Debug)]
pub struct Limits {
    pub place: Place,
    pub half_width: f64,
    pub settled: Settled,
}

// What goes from reading to reading: the last record, and where the chart stands.
#[derive(Clone, Copy, PartialEq, Debug)]
pub struct State {
    pub shown: EwmaResult,
    pub limits: Limits,
}

impl Ewma {
    // A chart about `target` in units of `sigma` by the rule of `edition`, with the weight 0.2 and limits
    // at 3 sigma.
    pub fn new(target: f64, sigma: f64, edition: Edition) -> Ewma
        ensures { result ≡ new_of target sigma edition }
    {
        Ewma {
            target,
            sigma,
            lambda: 0.2,
            l_factor: 3.0,
            edition,
        }
    }

    pub fn with_params(
        target: f64,
        sigma: f64,
        lambda: f64,
        l_factor: f64,
        edition: Edition,
    ) -> Ewma
        ensures { result ≡ with_params target sigma lambda l_factor edition }
    {
        Ewma {
            target,
            sigma,
            lambda,
            l_factor,
            edition,
        }
    }

    // Writes a record for each reading of `data` to the front of `records`, and leaves the others; a
    // refusal changes nothing. Cost: one step for each reading.
    pub fn analyze(self, data: &[f64], records: &mut [EwmaResult]) -> Result<usize, Refusal>
        ensures { (result, records.new) ≡ analyzed self «data».now records.old }
    {
        charts::analyze(self, data, records)
    }

    // Writes the index of each reading of `data` that signals to the front of `points`, which needs
    // room for as many as there are readings, and leaves the others; a refusal changes nothing. Cost:
    // one step for each reading.
    pub fn signal_points(self, data: &[f64], points: &mut [usize]) -> Result<usize, Refusal>
        ensures { (result, points.new) ≡ signalled self «data».now points.old }
    {
        run_points(self, data, points)
    }
}

// The indices that signal in the run of states, which shows the chart's own records (`proofs/AtRest`).
fn run_points(chart: Ewma, data: &[f64], points: &mut [usize]) -> Result<usize, Refusal>
    ensures { (result, points.new) ≡ signalled chart «data».now points.old }
{
    charts::signal_points(chart, data, points)
}
