// The median of the magnitudes of a channel's first differences (rule 3.4).
//
// `median_difference` asks nothing of its caller. It works in the lent area `run`, which has one float
// for each difference and is +0 afterwards; where `run` is of another length, or there is no difference,
// the answer is NaN and `run` is left as it was. `specs/Median` has the definition, which puts the
// differences in order.
//
// How the middle differences are found is the crate's own affair: `middles` alone stands between the
// median and the search, and no public contract says how it is made. A rank counts from 0: the value of
// rank r stands at the index r of the values in order. Each round splits what is left of `run` by a
// pivot and keeps the part that has the two middle ranks, at the front of the same floats.
#![tactic(auto)]

mod ends;
mod few;
mod magnitudes;
mod middle;
mod narrow;
mod partition;
mod pivot;
mod rank;
mod rounds;

ghost use Rattle.std.specs.Prelude.{◌+◌, ◌≤◌};

pub use middle::median_difference;

// The two middle values of some differences, `low` and `high`; of an odd number of them the middle one,
// twice.
#[derive(Clone, Copy)]
struct Middles {
    low: f64,
    high: f64,
}

// The ranks of the two values that are looked for, which stand side by side or are one and the same.
#[derive(Clone, Copy)]
struct Ranks {
    first: usize,
    second: usize,
    ghost near: { (first ≤ second) × (second ≤ first + 1) },
}

// What a round leaves: the values at the front of the run, `size` of them, and the ranks among those.
#[derive(Clone, Copy)]
struct Left {
    size: usize,
    ranks: Ranks,
}

// How many values are below a pivot, `below`, and how many are not above it, `upto`.
#[derive(Clone, Copy)]
struct Counts {
    below: usize,
    upto: usize,
}

// Two bit patterns, `low` and `high`, between which the value that is looked for lies, `low` included.
#[derive(Clone, Copy)]
struct Bracket {
    low: u64,
    high: u64,
}
