// What a ball reaches along a channel, and of a span.
ghost use Rattle.std.specs.Prelude.{◌≡◌};
ghost use Rattle.candidate_sides.specs.Reach.{narrowed};
ghost use Rattle.candidate_sides.specs.Inner.Slab.{about};

use crate::Span;
use elementary::sqrt;
use floats::{max, min};

impl Span {
    // From `c - w` to `c + w`.
    pub(crate) fn about(c: f64, w: f64) -> Span
        ensures { result ≡ about c w }
    {
        Span {
            lo: c - w,
            hi: c + w,
        }
    }

    // The part of the span that a ball reaches whose centre is `c` along this channel, where `room` is
    // what the other channels leave of the square of its radius.
    pub fn narrowed(self, c: f64, room: f64) -> Span
        ensures { result ≡ narrowed self c room }
    {
        let reach = Span::about(c, sqrt(max(room, 0.0)));
        Span {
            lo: max(self.lo, reach.lo),
            hi: min(self.hi, reach.hi),
        }
    }
}
