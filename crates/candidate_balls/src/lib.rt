// `Ball`, and the balls in which a candidate of the functional search loses, as they stand in an area:
// three runs of 64 floats, one after the other, with the first numbers of the centres, the second
// numbers, and the squares of the radii. `lose_inside` (rule 3.13) adds a ball, of which 64 are kept.
//
// No public function asks anything of its caller: where the area has no room for the runs, nothing is
// done. Each result, and each area afterwards, is to the bit what `specs/Losing` says.
#![tactic(auto)]

mod balls;

pub use balls::{has_room, lose_inside};

// A centre, with a number for each channel, and the square of a radius.
#[derive(Clone, Copy)]
pub struct Ball {
    pub centre: [f64; 2],
    pub r2: f64,
}

// How many balls a candidate keeps.
pub const LOSING_BALLS: usize = 64;

// How far from the first run the second and the third begin, and how many floats the three take.
const SECONDS: usize = LOSING_BALLS;

const RADII: usize = 2 * LOSING_BALLS;

const RUNS: usize = 3 * LOSING_BALLS;

// The number of the last ball of a full list, from 0.
const LAST: usize = LOSING_BALLS - 1;
