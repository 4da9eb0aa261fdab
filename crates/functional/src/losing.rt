// The balls in which the new candidate loses.
ghost use Rattle.std.specs.Prelude.{◌≡◌, ◌≤◌, length};
ghost use Rattle.search_rules.specs.Functional.{inner_ball};
ghost use Rattle.functional.specs.Inner.Held.{slot_at, facing_at, Balls, lost_by};

use crate::slots::facing_at;
use crate::{Balls, Slot};
use candidate_balls::{Ball, lose_inside};
use search_rules::Facing;

// The narrower of the two balls of `x`; on one channel the second number of its centre is 0. A function
// beside `outer_ball`, since search_rules has a definition of its own for each.
fn inner_ball(x: Facing) -> Ball
    ensures { result ≡ inner_ball x }
{
    Ball {
        centre: [x.cx, x.cy],
        r2: x.inner,
    }
}

// Gathers at the front of `born` the balls in which the new candidate loses to the living ones, as these
// are faced in their slots, and says how many are kept. Cost: one turn for each of them.
pub(crate) fn lose_all(channels: usize, slots: &[Slot], born: &mut Balls) -> usize
    ensures { Balls channels born.new result (lost_by channels (λ j. inner_ball (facing_at (slot_at slots.now j))) (length slots.now)) }
{
    let mut balls = 0;
    for slot in slots {
        let ball = inner_ball(facing_at(slot));
        balls = lose_inside(channels, born, 0, balls, ball);
    }
    balls
}
