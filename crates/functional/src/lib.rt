// The functional search, in lent areas: for the L2 cost on one or two channels it finds where the last
// cut before each end lies, and drops a candidate for that once no mean is left with which it wins
// (rules 3.10 to 3.16).
//
// `partition_functional` asks nothing of its caller. Crate `search_rules` has the search as it is
// defined (`specs/Functional`), and what is answered and left in the lent areas (`specs/Partitioned`);
// that no other outcome meets it is said in `proofs/PartitionLaws`. `specs/Inner/Held` says for the private
// functions how the areas hold a state of the search.
#![tactic(auto)]

mod birth;
mod channels;
mod faces;
mod losing;
mod marks;
mod narrowing;
mod partition;
mod slots;
mod steps;

use candidate::Candidate;
pub use partition::partition_functional;

// The most channels on which the L2 cost takes this search.
pub const FUNCTIONAL_MAX_CHANNELS: usize = 2;

// How many floats a slot of the pool has: a header of 8, which are the 4 numbers of a candidate's box
// and the 4 with which a new candidate faces it, and then the balls in which the candidate loses.
const HEADER: usize = 8;

const BALLS: usize = Candidate::BALLS;

pub const SLOT_FLOATS: usize = HEADER + BALLS;

// What a candidate's word has on top of the number of its balls where they cut nothing from its box; it
// is above every such number.
const MARK: usize = 2 * Candidate::LOSING_BALLS;

// A slot of the pool; and the balls of a candidate that has no slot yet.
type Slot = [f64; SLOT_FLOATS];

type Balls = [f64; BALLS];

// What the indices have of a living candidate: its index, and its word.
type Entry = [usize; 2];

// What is searched: the run, its running sums, and the box of the ranges of its channels. F, the
// predecessors, the entries and the slots are lent beside it: in a struct of lent slices each function
// that changes one would have to say of all four that they are still the same slices.
#[derive(Clone, Copy)]
struct Plan<'a> {
    pub run: &'a [f64],
    pub sums: &'a [f64],
    pub penalty: f64,
    pub n: usize,
    pub m: usize,
    pub channels: usize,
    pub range: Candidate,
}
