// The flat run of readings and its list of channel lengths: what refusals 3, 4, 5, 6 and 8 ask of
// them, and the view by which callers take a channel as a part of the run.
//
// No function asks anything of its caller. Lengths are added exactly: a list whose sum only fits
// after it wrapped is refused.
//
// What the answers say in the rules' numbers: `shaped` and `checked` in `specs/`, and the laws
// `shaped_said` and `checked_said` in `proofs/`. Where there is no channel `k` the view gives an empty
// part: `specs/View`; that the channels of lengths which are not refused are the parts of the run is a
// law of `proofs/ViewLaws`.
#![tactic(auto)]

mod channel;
mod gaps;
mod lengths;
mod view;

pub use gaps::all_finite;
pub use lengths::shape;
pub use view::channel_of;

// The channels of a run: `count` of them, with `length` readings each.
#[derive(Clone, Copy)]
pub struct Channels {
    pub count: usize,
    pub length: usize,
}

// The view: the flat `run`, taken for `channels` channels of `length` readings each.
#[derive(Clone, Copy)]
pub struct Readings<'a> {
    pub run: &'a [f64],
    pub channels: usize,
    pub length: usize,
}
