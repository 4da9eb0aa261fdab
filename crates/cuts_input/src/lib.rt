// The form of the program's input (rule 7.1): which bytes ask for which search.
//
// `read_request` asks nothing of its caller, and every input has an answer, damaged ones too: the
// settings of a search with its readings and the lengths of its channels, or that the input is not of
// the form. `specs/Form` says which bytes ask for which search, `specs/Parsed` how that is answered;
// that one outcome alone meets it is proved (`proofs/ParsedLaws`). `specs/Inner/Held` is for the
// private functions.
#![tactic(auto)]

mod channels;
mod field;
mod input;
mod settings;

use costs::{CostFunction, Penalty};
pub use input::read_request;

// The most bytes of an input: more are refusal 10.
pub const MOST_BYTES: usize = 8236;

// As many readings as 8,236 bytes may hold, and as many lengths.
const READINGS: usize = 1030;

const LENGTHS: usize = 2746;

// What an input asks for: a search of `readings` readings in `channels` channels, by its settings.
#[derive(Clone, Copy)]
pub struct Request {
    pub cost: CostFunction,
    pub penalty: Penalty,
    pub min_segment_len: usize,
    pub readings: usize,
    pub channels: usize,
}

// A `request` with its readings at the front of `run`, the lengths of its channels at the front of
// `lengths`, and zeros behind them; none, and zeros alone, where the input is not of the form. The areas
// have a fixed room, since nothing is allocated, and the request says how much of it is filled.
#[derive(Drop)]
pub struct Parsed {
    pub request: Option<Request>,
    pub run: [f64; READINGS],
    pub lengths: [usize; LENGTHS],
}
