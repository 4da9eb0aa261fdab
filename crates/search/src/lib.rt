// A search by its settings: the cuts in the front of a lent area, or a numbered refusal.
//
// `find_cuts` asks nothing of its caller. Crate `search_answer` has the cuts, what is answered and what
// every lent area holds afterwards, and proves what promise 2 says of the cuts. `specs/Inner` is for the
// private functions.
#![tactic(auto)]

mod cuts;
mod search;

pub use functional::{FUNCTIONAL_MAX_CHANNELS, SLOT_FLOATS};
pub use search::find_cuts;
