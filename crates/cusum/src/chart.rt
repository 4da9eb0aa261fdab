// The settings of a chart, and the states of a run, for what any chart's calls are.
ghost use Rattle.cusum.specs.Chart.{in_range, start_state, next_state, shown_of};

use crate::step::step;
use crate::{Cusum, CusumResult, State};
use charts::{Chart, InRange, Observation, Side};

impl Chart for Cusum {
    type State = State;

    type Record = CusumResult;

    ghost in_range = { in_range };

    ghost start = { start_state };

    ghost next = { next_state };

    ghost shown = { shown_of };

    ghost side = { λ r. r.side };

    fn in_range(self) -> InRange {
        let target = floats::finite(self.target);
        let sigma = floats::finite(self.sigma) & (0.0 < self.sigma);
        let weight = floats::finite(self.k) & (0.0 <= self.k);
        let bound = floats::finite(self.h) & (0.0 < self.h);
        InRange {
            target,
            sigma,
            weight,
            bound,
        }
    }

    // Both sums are zero.
    fn start(self) -> State {
        let shown = CusumResult {
            s_upper: 0.0,
            s_lower: 0.0,
            side: Side::None,
            index: Observation(0),
        };
        State { shown }
    }

    fn following(self, data: &[f64], i: usize, state: State) -> State {
        if i < data.len() {
            let before = state.shown;
            let after = step(self, before, Observation(i), data[i]);
            return State { shown: after };
        }
        state
    }

    fn shown(state: State) -> CusumResult {
        state.shown
    }

    fn side(row: CusumResult) -> Side {
        row.side
    }
}
