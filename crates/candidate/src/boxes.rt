// The box, the ball that narrows it, and whether anything is left of it.
ghost use Rattle.std.specs.Prelude.{◌≡◌, ℕ, ◌<◌, Float};
ghost use Rattle.candidate_sides.specs.declared.Span.{Span};
ghost use Rattle.candidate.specs.Boxes.{gap2, nothing, gone, span_at, with_span, over_channels, along_each, restrict};
ghost use Rattle.candidate.specs.Dominated.{is_dominated};

use crate::Candidate;
use candidate_balls::Ball;
use candidate_sides::Span;
use floats::max;

// The square of the distance from `c` to `span`.
fn gap2(span: Span, c: f64) -> f64
    ensures { result ≡ gap2 span c }
{
    let gap = max(max(span.lo - c, c - span.hi), 0.0);
    gap * gap
}

// A span with nothing in it.
fn nothing() -> Span
    ensures { result ≡ nothing }
{
    Span {
        lo: f64::from_bits(0x7ff0_0000_0000_0000),
        hi: f64::from_bits(0xfff0_0000_0000_0000),
    }
}

// Whether nothing is left of `span`.
pub(crate) fn gone(span: Span) -> bool
    ensures { result ≡ gone span }
{
    span.hi < span.lo
}

// The sum of `g` over the channels; any number of them but 1 counts as 2.
#[tactic(auto, unfolding(crate::specs::Boxes::over_channels))]
pub(crate) fn over_channels<F: Fn(usize) -> f64>(channels: usize, g: F) -> f64
    requires { (k : ℕ) → k < 2 → F.pre g k }
    ensures { (h : ℕ → Float) → ((k : ℕ) (r : Float) → k < 2 → F.post g k r → r ≡ h k) → result ≡ over_channels channels h }
{
    if channels == 1 { g(0) } else { g(0) + g(1) }
}

impl Candidate {
    // The side of the box along channel `k`.
    #[tactic(auto, unfolding(crate::specs::Boxes::span_at))]
    pub(crate) fn side(self, k: usize) -> Span
        requires { k < 2 }
        ensures { result ≡ span_at self k }
    {
        Span {
            lo: self.lo[k],
            hi: self.hi[k],
        }
    }

    // The box with `span` for its side along channel `k`.
    #[tactic(auto, unfolding(crate::specs::Boxes::with_span))]
    pub(crate) fn with_side(mut self, k: usize, span: Span) -> Candidate
        requires { k < 2 }
        ensures { result ≡ with_span k span self }
    {
        self.lo[k] = span.lo;
        self.hi[k] = span.hi;
        self
    }

    // The box changed along each channel in its turn, by `step`.
    #[tactic(auto, unfolding(crate::specs::Boxes::along_each))]
    pub(crate) fn along_each<F: Fn(usize, Span) -> Span>(
        self,
        channels: usize,
        step: F,
    ) -> Candidate
        requires { (k : ℕ) (s : Span) → k < 2 → F.pre step k s }
        ensures { (h : ℕ → Span → Span) → ((k : ℕ) (s r : Span) → k < 2 → F.post step k s r → r ≡ h k s) → result ≡ along_each channels h self }
    {
        let changed = self.with_side(0, step(0, self.side(0)));
        if channels == 1 {
            return changed;
        }
        changed.with_side(1, step(1, changed.side(1)))
    }

    // Narrows the box to the smallest box around what it shares with `ball`. Cost: a root for each
    // channel.
    pub fn restrict(self, channels: usize, ball: Ball) -> Candidate
        ensures { result ≡ restrict channels ball self }
    {
        let total = over_channels(channels, |k| gap2(self.side(k), ball.centre[k]));
        if (ball.r2 < 0.0) | (ball.r2 < total) {
            return self.with_side(0, nothing());
        }
        self.along_each(channels, |k, side| {
            side.narrowed(
                ball.centre[k],
                ball.r2 - (total - gap2(side, ball.centre[k])),
            )
        })
    }

    // Whether nothing is left of the box along one of the channels.
    #[tactic(auto, unfolding(crate::specs::Dominated::is_dominated))]
    pub fn is_dominated(self, channels: usize) -> bool
        ensures { result ≡ is_dominated channels self }
    {
        let first = gone(self.side(0));
        if channels == 1 {
            return first;
        }
        first | gone(self.side(1))
    }
}
