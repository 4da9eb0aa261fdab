// Sums over a channel: its mean, and the running sums of its readings less that mean and of their
// squares (rule 3.5); and the running sums of all channels of a run in one area.
//
// No function asks anything of its caller. Each result is, to the bit, that of the definition which its
// contract names; NaN and infinities flow through as IEEE 754 says. `specs/Sums` and `specs/EachChannel`
// have the definitions.
#![tactic(auto)]

mod channels;
mod running;
mod total;

pub use channels::channel_sums;
pub use running::cumulative_sums;
pub use total::mean;
