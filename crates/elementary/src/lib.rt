// The square root, whole powers and the natural logarithm (rules 4.1 to 4.3): `sqrt`, `powi` and `ln`;
// and `ln_last_step`, which crate `logarithms` takes for the same last step.
//
// Each takes every value, asks nothing of its caller, and returns the value that one definition of
// `specs/` gives, to the bit; NaN counts as one value. The square root is correctly rounded:
// `proofs/root/Closest` has the law that no other value of the format is as near to the root, and
// `proofs/RootBound` an upper bound of it that takes no root. The logarithm's constants are derived from
// the series of ln 2 in `proofs/LnTwo`; `proofs/LastStep` says where the last step is exact.
#![tactic(auto)]

mod logarithm;
mod parts;
mod power;
mod root;

pub use logarithm::{ln, ln_last_step};
pub use power::powi;
pub use root::sqrt;
