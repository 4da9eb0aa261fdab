// Both searches as the rules define them (rules 3.8 to 3.16), and the small functions that both share.
//
// `specs/Minimum` has the first strict minimum in scan order, `specs/Predecessors` what is said of a
// list of predecessors, `specs/Room` the room that a search asks. `specs/Inequality` is the inequality
// search: the recurrence F(t) = min F(tau) + cost(tau, t) + penalty, with candidates dropped by the
// inequality. `specs/Functional` is the functional search, for the L2 cost on one or two channels: a
// candidate is dropped once no mean is left where it wins; `specs/Partitioned` says what a call of it
// answers and leaves in the lent areas. The crates `inequality` and `functional` have the code.
//
// No function asks anything of its caller. It is proved that each predecessor is 0, or at least m and at
// least m before its t, whatever the costs are (`proofs/InequalityLaws`, `proofs/FunctionalLaws`), and
// that `peak` is the most candidates that live at once (`proofs/PeakLaws`). Steps of both searches are
// evaluated (`proofs/InequalityExamples`, `proofs/FunctionalExamples`): these refuse the wrong
// definitions of `must-fail/`.
#![tactic(auto)]

mod minimum;
mod room;
mod slack;

pub use minimum::{better, none_yet};
pub use room::search_fits;
pub use slack::slack_of;

// The lowest total so far, `cost`, and the candidate `tau` that it belongs to.
#[derive(Clone, Copy, PartialEq, Debug)]
pub struct Best {
    pub cost: f64,
    pub tau: usize,
}

// What two candidates a < b mean to each other: two balls about the mean of the readings between them,
// with the centre `cx`, `cy` and the squares of their radii. In the `outer` one, wider by the slack, a
// may still win; in the `inner` one, narrower by it, b loses.
#[derive(Clone, Copy, PartialEq, Debug)]
pub struct Facing {
    pub cx: f64,
    pub cy: f64,
    pub outer: f64,
    pub inner: f64,
}
