// What a search answers by its settings, as docs/RULES.md defines it: refusals 1 to 8 in the order in
// which they are tried, refusal 9, the cuts, and what every lent area holds afterwards.
//
// `admitted` asks nothing of its caller and decides everything by value, before any lent area is
// touched: `specs/Tests` has the tests and their order. That its answer says the rules' numbers, and
// what an admitted search may rely on, is proved in `proofs/AdmissionLaws`.
//
// `specs/Search` has the cuts, `specs/Outcome` the answer and the areas, `specs/Promise` what promise 2
// says of the cuts, which is proved in `proofs/CutLaws`. `proofs/Examples` has the edges of a search by
// computation. Crate `search` has the code.
#![tactic(auto)]

mod tests;

pub use tests::admitted;
