// What the programs that replay stored answers share: reading a stored case, comparing an answer with
// it, counting, and saying what was found.
//
// The cases are those that the programs of `tests/vectors` write; their first lines say what they are
// made of. Nothing here trusts them: a case that ends too early, or has a number that is out of range,
// stops the replay and is reported. Kinds and values are printed by their numbers, which take less to
// prove than names do: each program says in its first lines what they mean.
#![tactic(auto)]

mod answers;
mod cases;
mod chart;
mod input;
mod progress;

pub use answers::{Kind, Value};
pub use cases::{Case, replay_cases};
pub use chart::{StoredChart, replay_chart};
pub use input::{
    Series, Source, float, next_block, next_number, next_readings, next_series, number,
};
pub use progress::Progress;
