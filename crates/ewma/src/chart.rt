// The settings of a chart, and the states of a run, for what any chart's calls are.
ghost use Rattle.ewma.specs.Chart.{in_range};
ghost use Rattle.ewma.specs.Settled.{start_state, next_state, shown_of};

use crate::resting::{limits_after, limits_at_first};
use crate::step::step_by;
use crate::{Ewma, EwmaResult, State};
use charts::{Chart, InRange, Observation, Side};

impl Chart for Ewma {
    type State = State;

    type Record = EwmaResult;

    ghost in_range = { in_range };

    ghost start = { start_state };

    ghost next = { next_state };

    ghost shown = { shown_of };

    ghost side = { λ r. r.side };

    fn in_range(self) -> InRange {
        let target = floats::finite(self.target);
        let sigma = floats::finite(self.sigma) & (0.0 < self.sigma);
        let weight = (0.0 < self.lambda) & (self.lambda <= 1.0);
        let bound = floats::finite(self.l_factor) & (0.0 < self.l_factor);
        InRange {
            target,
            sigma,
            weight,
            bound,
        }
    }

    // The statistic is the target. Cost: at most 13 squares, for where the limits settle.
    fn start(self) -> State {
        let shown = EwmaResult {
            ewma: self.target,
            ucl: self.target,
            lcl: self.target,
            side: Side::None,
            index: Observation(0),
        };
        let limits = limits_at_first(self);
        State { shown, limits }
    }

    fn following(self, data: &[f64], i: usize, state: State) -> State {
        if i < data.len() {
            let before = state.shown;
            let limits = limits_after(self, state.limits, i, data[i]);
            let after = step_by(self, limits.half_width, before, Observation(i), data[i]);
            return State {
                shown: after,
                limits,
            };
        }
        state
    }

    fn shown(state: State) -> EwmaResult {
        state.shown
    }

    fn side(row: EwmaResult) -> Side {
        row.side
    }
}
