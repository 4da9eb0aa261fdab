// Small laws of truth values and equality that proofs of many crates cite. There is neither code nor a
// definition here: `proofs/Laws` has all of it.
#![tactic(auto)]
