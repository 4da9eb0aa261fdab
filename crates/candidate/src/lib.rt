// `Candidate`, one candidate of the functional search: the box where it can still win. A ball narrows
// it (`restrict`), the balls in which it loses cut it (`cut_losing`), and it is out once nothing is left
// of it (`is_dominated`): rules 3.10, 3.12, 3.14 and 3.15.
//
// No public function asks anything of its caller. The number of channels is 1, and any other counts as
// 2. Each result is to the bit what the definition says that its contract names: `specs/Boxes` for the
// box and the ball that narrows it, `specs/Cuts` for what the losing balls cut from it,
// `specs/Dominated` for whether anything is left. `specs/Balls` says for which list of balls an area
// stands, and `specs/Losses` which balls of a list are kept; that the balls of an area cut what that
// list cuts is said in `proofs/RootLaws`, and that `candidate_balls::lose_inside` does to the list what
// the definition does in `proofs/AreaLaws`. Crate `candidate_sides` has one side of the box, and crate
// `candidate_balls` the balls in an area.
#![tactic(auto)]

mod boxes;
mod cuts;

// The box: its lower and its upper corner, with a number for each channel.
#[derive(Clone, Copy)]
pub struct Candidate {
    pub lo: [f64; 2],
    pub hi: [f64; 2],
}

impl Candidate {
    // How many of the balls in which it loses a candidate keeps.
    pub const LOSING_BALLS: usize = candidate_balls::LOSING_BALLS;

    // The balls stand in an area in three runs: how far from the first the second and the third begin,
    // and how many floats the three take.
    pub const SECONDS: usize = Candidate::LOSING_BALLS;

    pub const RADII: usize = 2 * Candidate::LOSING_BALLS;

    pub const BALLS: usize = 3 * Candidate::LOSING_BALLS;
}
