// The three runs that begin at `place` of an area: a ball put there, and one more for a full list. Area
// and place stand apart here, as the contracts of `has_room` and `lose_inside` have them.
ghost use Rattle.std.specs.Prelude.{◌≡◌, ◌<◌, length, get_or};
ghost use Rattle.std.specs.Float.{nan};
ghost use Rattle.candidate_balls.specs.Losing.{narrowest_in, second_number, put_ball, copy_last, has_room, displaced, Lost, losing_balls};
ghost use Rattle.candidate_balls.specs.Inner.Runs.{RunsFit};

use crate::{Ball, LAST, LOSING_BALLS, RADII, RUNS, SECONDS};
use elementary::sqrt;
use floats::ahead;

// Whether an area of `size` floats has room for the three runs from `place`, and `count` is at most 64;
// no sum is formed that could wrap.
#[tactic(auto, unfolding(crate::specs::Losing::has_room))]
pub fn has_room(size: usize, place: usize, count: usize) -> bool
    ensures { result ≡ has_room size place count }
{
    count <= LOSING_BALLS && place <= size && RUNS <= size - place
}

// Stores `ball` as ball `i` of the runs at `place`.
#[tactic(auto, unfolding(crate::specs::Losing::put_ball))]
fn put_ball(balls: &mut [f64], place: usize, i: usize, ball: Ball)
    requires { RunsFit place (length balls.old) × (i < losing_balls) }
    ensures { balls.new ≡ put_ball balls.old place i (get_or ball.centre 0 nan) (get_or ball.centre 1 nan) ball.r2 }
{
    balls[place + i] = ball.centre[0];
    balls[place + SECONDS + i] = ball.centre[1];
    balls[place + RADII + i] = ball.r2;
}

// Copies the last of 64 balls over ball `i`.
#[tactic(auto, unfolding(crate::specs::Losing::copy_last))]
fn copy_last(balls: &mut [f64], place: usize, i: usize)
    requires { RunsFit place (length balls.old) × (i < losing_balls) }
    ensures { balls.new ≡ copy_last balls.old place i }
{
    let last = Ball {
        centre: [balls[place + LAST], balls[place + SECONDS + LAST]],
        r2: balls[place + RADII + LAST],
    };
    put_ball(balls, place, i, last);
}

// What the second run holds for a ball: `d`, the second number of its centre. On one channel that is
// free, and the root of `r2` stands there, so that cutting takes none.
fn second_number(channels: usize, d: f64, r2: f64) -> f64
    ensures { result ≡ second_number channels d r2 }
{
    if channels == 1 { sqrt(r2 - 0.0) } else { d }
}

// `ball` as the runs hold it.
fn stored(channels: usize, ball: Ball) -> Ball
    ensures first { get_or result.centre 0 nan ≡ get_or ball.centre 0 nan }
    ensures second { get_or result.centre 1 nan ≡ second_number channels (get_or ball.centre 1 nan) ball.r2 }
    ensures radius { result.r2 ≡ ball.r2 }
{
    let [c, d] = ball.centre;
    Ball {
        centre: [c, second_number(channels, d, ball.r2)],
        r2: ball.r2,
    }
}

// Which of 64 balls is the narrowest, from 0, the earliest on a tie. Cost: one turn for each ball.
fn narrowest(balls: &[f64], place: usize) -> usize
    requires { RunsFit place (length balls.now) }
    ensures { (result ≡ narrowest_in balls.now place 63) × (result < losing_balls) }
{
    let mut least = 0;
    for i in 1..LOSING_BALLS {
        if ahead(balls[place + RADII + i], balls[place + RADII + least]) {
            least = i;
        }
    }
    least
}

// One more ball for 64: the last one takes the place of the narrowest, and the new one goes last. One
// that is no wider than the narrowest is turned away.
fn displace(channels: usize, balls: &mut [f64], place: usize, ball: Ball)
    requires { RunsFit place (length balls.old) }
    ensures { balls.new ≡ displaced balls.old place (get_or ball.centre 0 nan) (second_number channels (get_or ball.centre 1 nan) ball.r2) ball.r2 }
{
    let i = narrowest(balls, place);
    if ball.r2 <= balls[place + RADII + i] {
        return;
    }
    copy_last(balls, place, i);
    put_ball(balls, place, LAST, stored(channels, ball));
}

// Adds `ball` to the `count` balls of a candidate, whose runs begin at `place` of `balls`, and says how
// many there are then; nothing is done where `balls` has no room for the runs. Cost: 64 turns with a
// full list, and a root on one channel for a ball that is kept.
pub fn lose_inside(
    channels: usize,
    balls: &mut [f64],
    place: usize,
    count: usize,
    ball: Ball,
) -> usize
    ensures { Lost channels balls.old balls.new place count ball result }
{
    if !has_room(balls.len(), place, count) || ball.r2 <= 0.0 {
        return count;
    }
    if count < LOSING_BALLS {
        put_ball(balls, place, count, stored(channels, ball));
        return count + 1;
    }
    displace(channels, balls, place, ball);
    count
}
