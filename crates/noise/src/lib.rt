// The noise variance of a channel (rule 3.4), and its sum over the channels of a run.
//
// No function asks anything of its caller. The differences are worked on in a part of a lent area, which
// is +0 afterwards; the rest of the area stays as it was. Where the area has no room for them the answer
// is NaN and the area is unchanged. `specs/Noise` has the definitions; the median is that of the crate
// `medians`.
#![tactic(auto)]

mod variance;

pub use variance::{noise_sum, noise_variance};
