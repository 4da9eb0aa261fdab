// The inequality search: the predecessors by the recurrence F(t) = min F(tau) + cost(tau, t) + penalty,
// with candidates dropped by the inequality. A search uses it for the Normal cost, and for L2 on three
// channels or more (rule 3.9).
//
// `partition_pruned` asks nothing of its caller. The crate `search_rules` has the recurrence, and what
// holds of the predecessors; `specs/Pruned` says what is left in the lent areas, and that one outcome
// alone meets it is proved. The other files of `specs/` are for the private functions: `specs/Inner/Held` says
// how the areas hold a state of the recurrence, `specs/Inner/Weights` the weights of the candidates that they
// give, `specs/Inner/Staying` the candidates that stay.
#![tactic(auto)]

mod keeping;
mod lowest;
mod normal;
mod pruned;
mod steps;
mod views;
mod weights;

use costs::CostFunction;
pub use pruned::partition_pruned;

// What is searched, and where it stands in the lent areas. The indices have the predecessors at their
// front and the candidates at `c`. The floats are parts of n + 1 floats: two for each channel, its sums
// and those of the squares, then F's at `f`, and the weights of the candidates at `p`. A part of sums,
// or F's, has at its front what belongs to the candidates, in their order, so that a loop over them goes
// from float to float; from t on the sums stand by index, for the steps to come. The areas are split at
// `c` and at `p` before the first step.
#[derive(Clone, Copy)]
struct Plan {
    pub cost: CostFunction,
    pub penalty: f64,
    pub n: usize,
    pub m: usize,
    pub channels: usize,
    pub f: usize,
    pub p: usize,
    pub c: usize,
}
