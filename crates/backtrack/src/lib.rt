// From the predecessors that a search records to its cuts (rule 3.17).
//
// `backtrack` asks nothing of its caller. `specs/Cuts` has the cuts by a list of predecessors, and
// `specs/Backtracked` what is left in the lent area; that one outcome alone meets it is proved. What
// promise 2 says of the cuts is in `specs/Pieces`, and `proofs/CutLaws` proves it of the cuts by sound
// predecessors. `specs/Inner` is for the private walk back, which is an iterator over the cuts.
#![tactic(auto)]

mod cuts;

pub use cuts::backtrack;
