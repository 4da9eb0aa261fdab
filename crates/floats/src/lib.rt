// Values, as every chart and search uses them: whether one is finite, its magnitude, the larger and the
// smaller of two, which of two stands first in order, and the bit pattern of one.
//
// Each function takes every value, asks nothing of its caller, and returns the value that one definition
// of `specs/` gives, to the bit; NaN counts as one value. `proofs/Order/` has the laws of IEEE order
// that the charts' promises rest on.
#![tactic(auto)]

mod bits;
mod larger;
mod magnitude;
mod ranking;
mod smaller;

pub use bits::{from_bits, to_bits};
pub use larger::max;
pub use magnitude::{abs, finite};
pub use ranking::ahead;
pub use smaller::min;
