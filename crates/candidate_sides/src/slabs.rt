// What a ball cuts from a span.
ghost use Rattle.std.specs.Prelude.{◌≡◌, ◌||◌, ◌*◌, ◌^◌, ◌<◌, ◌≤◌, true, T, from_bits};
ghost use Rattle.std.specs.Float.{binary64};
ghost use Rattle.floats.specs.Numbers.{◌≤ᶠ◌};
ghost use Rattle.floats.specs.Finite.{finite};
ghost use Rattle.elementary.specs.Root.{sqrt};
ghost use Rattle.candidate_sides.specs.Slabs.{far2, cut_ends, cut_span, cut_by_root};
ghost use Rattle.candidate_sides.specs.Inner.Slab.{within, moved_by, cut_by};

use crate::Span;
use elementary::sqrt;
use floats::{finite, max};

// A value that is at least the root of the number whose bits are `pattern`, and at most 7% above it:
// half the pattern is about half the exponent.
fn above_root(pattern: u64) -> f64
    requires { (2 ^ 52 ≤ pattern) × (pattern < 2047 * 2 ^ 52) }
    ensures { T (sqrt (from_bits binary64 pattern) ≤ᶠ result) × T (finite result) }
{
    f64::from_bits(pattern / 2 + 0x1ff8_0000_0000_0001)
}

impl Span {
    // The square of the distance from `c` to the farther end of the span.
    #[tactic(auto, unfolding(crate::specs::Slabs::far2))]
    pub fn far2(self, c: f64) -> f64
        ensures { result ≡ far2 self c }
    {
        let low = self.lo - c;
        let high = self.hi - c;
        max(low * low, high * high)
    }

    // Whether `v` lies in the span.
    fn holds(self, v: f64) -> bool
        ensures { result ≡ within self v }
    {
        (self.lo <= v) & (v <= self.hi)
    }

    // Whether an end of the span lies in `slab`.
    fn ends_in(self, slab: Span) -> bool
        ensures { result ≡ (within slab self.lo || within slab self.hi) }
    {
        slab.holds(self.lo) | slab.holds(self.hi)
    }

    // `v`, or `to` instead where `v` lies in the span.
    fn moved(self, v: f64, to: f64) -> f64
        ensures { result ≡ moved_by self v to }
    {
        if self.holds(v) { to } else { v }
    }

    // The span with each end that lies in `slab` moved to the far side of that.
    fn cut_ends(self, slab: Span) -> Span
        ensures { result ≡ cut_by slab self }
    {
        Span {
            lo: slab.moved(self.lo, slab.hi),
            hi: slab.moved(self.hi, slab.lo),
        }
    }

    // Whether a bound of the root of `square` shows that no end of the span lies within that root of
    // `c`, so that the root need not be taken. It says no for a square at the ends of the range.
    fn misses(self, c: f64, square: f64) -> bool
        ensures { result ≡ true → cut_ends self c (sqrt square) ≡ self }
    {
        // Two tests, since a pattern is asked of no NaN.
        if 0.0 < square {
            let pattern = square.to_bits();
            if (0x0010_0000_0000_0000..0x7ff0_0000_0000_0000).contains(&pattern) {
                return !self.ends_in(Span::about(c, above_root(pattern)));
            }
        }
        false
    }

    // Cuts the span by a ball about `c` with the square `r2`, where this is not below `rest`, which is
    // what the other channels have of `far2`. A root is taken only where an end lies inside or nearly so.
    pub fn cut_span(self, c: f64, r2: f64, rest: f64) -> Span
        ensures { result ≡ cut_span self c r2 rest }
    {
        if r2 < rest {
            return self;
        }
        let square = r2 - rest;
        if self.misses(c, square) {
            return self;
        }
        self.cut_ends(Span::about(c, sqrt(square)))
    }

    // Cuts the span on one channel by a ball about `c` whose radius is `w`. Whether `far2` is finite is
    // asked only where an end lies inside: where it is not, the rest is no number and nothing is cut.
    pub fn cut_by_root(self, c: f64, w: f64) -> Span
        ensures { result ≡ cut_by_root self c w }
    {
        let slab = Span::about(c, w);
        if self.ends_in(slab) && finite(self.far2(c)) {
            return self.cut_ends(slab);
        }
        self
    }
}
