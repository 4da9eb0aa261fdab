// What the losing balls cut from the box.
ghost use Rattle.std.specs.Prelude.{◌≡◌, ◌+◌, ◌≤◌, ◌<◌, ◌*◌, cond, eqb, length, get_or};
ghost use Rattle.candidate_balls.specs.Losing.{losing_balls};
ghost use Rattle.candidate_balls.specs.Inner.Runs.{RunsFit};
ghost use Rattle.candidate.specs.Balls.{held_at, held};
ghost use Rattle.candidate.specs.Cuts.{cut_by, cut_rooted, cut_to, cut_in};

use crate::Candidate;
use crate::boxes::{gone, over_channels};
use candidate_balls::{Ball, has_room};

// Ball `i` of those at `place` of `balls`.
#[tactic(auto, unfolding(crate::specs::Balls::held_at))]
fn ball_at(balls: &[f64], place: usize, i: usize) -> Ball
    requires { RunsFit place (length balls.now) × (i < losing_balls) }
    ensures { result ≡ held_at balls.now place i }
{
    Ball {
        centre: [balls[place + i], balls[place + Candidate::SECONDS + i]],
        r2: balls[place + Candidate::RADII + i],
    }
}

impl Candidate {
    // Cuts the box by one ball on two channels.
    fn cut_by(self, ball: Ball) -> Candidate
        ensures { result ≡ cut_by 2 ball self }
    {
        let total = over_channels(2, |k| self.side(k).far2(ball.centre[k]));
        self.along_each(2, |k, side| {
            side.cut_span(ball.centre[k], ball.r2, total - side.far2(ball.centre[k]))
        })
    }

    // Cuts the box by one ball on one channel, by the root that stands for the second number of its
    // centre.
    #[tactic(auto, unfolding(crate::specs::Cuts::cut_rooted))]
    fn cut_rooted(self, ball: Ball) -> Candidate
        ensures { result ≡ cut_rooted ball self }
    {
        let [c, w] = ball.centre;
        self.with_side(0, self.side(0).cut_by_root(c, w))
    }

    // Cuts the box by the `count` balls at `place` of `balls`, until it is empty along the first
    // channel. Cost: one turn for each ball; on two channels a root for each channel along which an end
    // of the box lies in the ball, or nearly so.
    fn cut_each(mut self, channels: usize, balls: &[f64], place: usize, count: usize) -> Candidate
        requires { RunsFit place (length balls.now) × (count ≤ losing_balls) }
        ensures { result ≡ cut_to (cond (eqb channels 1) cut_rooted (cut_by 2)) (held balls.now place count) self count }
    {
        for i in 0..count {
            if gone(self.side(0)) {
                return self;
            }
            let ball = ball_at(balls, place, i);
            self = if channels == 1 {
                self.cut_rooted(ball)
            } else {
                self.cut_by(ball)
            };
        }
        self
    }

    // Cuts from the box every slab inside a ball where the candidate loses: `count` balls, whose runs
    // begin at `place` of `balls`. Nothing is cut where `balls` has no room for the runs.
    pub fn cut_losing(self, channels: usize, balls: &[f64], place: usize, count: usize) -> Candidate
        ensures { result ≡ cut_in channels balls.now place count self }
    {
        if has_room(balls.len(), place, count) {
            return self.cut_each(channels, balls, place, count);
        }
        self
    }
}
