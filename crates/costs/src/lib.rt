// What a segment of a channel costs (rule 3.6), and the penalty of a change (rule 3.3).
//
// No function asks anything of its caller. Each result is, to the bit, that of the definition which its
// contract names: `specs/Costs` for a segment, `specs/Summed` for a segment by the sums that an area
// holds, `specs/Penalties` for the penalty.
#![tactic(auto)]

mod penalties;
mod segments;
mod summed;

pub use penalties::resolve_penalty;
pub use segments::{l2_cost, segment_cost};
pub use summed::cost_of;

// How a segment is priced: by its squares about its mean, or by the logarithm of its variance.
#[derive(Clone, Copy)]
pub enum CostFunction {
    L2,
    Normal,
}

// The penalty of a change: by the Bayesian information criterion, or a value for each channel.
#[derive(Clone, Copy)]
pub enum Penalty {
    Bic,
    Custom(f64),
}

// What a cost is of: the `length` of a segment of readings, their `sum` and their `sum_of_squares`, each
// reading less the channel's mean.
#[derive(Clone, Copy)]
pub struct Segment {
    pub length: f64,
    pub sum: f64,
    pub sum_of_squares: f64,
}
