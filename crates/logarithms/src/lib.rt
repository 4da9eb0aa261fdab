// The natural logarithms of many values at once.
//
// `ln_each` asks nothing of its caller, and each value becomes what `elementary::ln` gives for it, to
// the bit. Blocks of values that are all plain (finite, above zero and not subnormal) go through short
// loops without a branch, of which the compiler takes several turns in one; in any other block each
// value is given to `elementary::ln`.
#![tactic(auto)]

mod block;
mod groups;
mod plain;
mod stages;

pub use block::ln_each;
