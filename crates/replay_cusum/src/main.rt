// Replays stored answers of the Rust's CUSUM chart: it shows the first values that are not the stored
// ones, to the bit, and says how many series, records, indices and run lengths there are, and how many
// of each differ. Lent records and indices that a call has no result for have to be as they were. Values
// come and go as bit patterns, by `floats::from_bits` and `floats::to_bits`.
//
// The kinds are 0 for series, 1 for records, 2 for indices, 3 for lent records and indices that are to
// be as they were, 4 for calls at a limit, and 5 for run lengths. The values are shown by these numbers:
//
//     0 to 2    of a record the upper sum, the lower sum, and its index with the side 32 bits higher
//     5, 6      the answers of signal_points and analyze: how many results, or a refusal 32 bits higher
//     7, 8      an index, and a lent index behind the last
//     9         a run length, or a refusal 32 bits higher
//
// The answers are the unmodified Rust's. `tests/vectors/run` makes standard input; the first lines of
// `tests/vectors/charts.rs` say what a case is made of. At the end come calls that the Rust can't show,
// by `replay_common`.
#![tactic(auto)]

mod records;
mod run_length;

use records::{Stored, UNUSED};
use replay_common::replay_chart;
use std::io;

fn main(rt: HostRuntime) -> io::Result<()> {
    replay_chart::<Stored>(&rt, &mut [UNUSED; 4097])
}
