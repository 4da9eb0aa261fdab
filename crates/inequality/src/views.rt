// What the weights at t are worked out from: parts of the lent areas, as slices with what is known of
// them.
ghost use Rattle.std.specs.Prelude.{ℕ, ◌≡◌, ◌+◌, ◌<◌, ◌≤◌, length, get_or};
ghost use Rattle.refusals.specs.Limits.{max_readings};

// One channel's running sums and sums of squares at the candidates that take part, in their order, and
// both at `t`.
#[derive(Clone, Copy)]
pub(crate) struct Channel<'a> {
    pub sums: &'a [f64],
    pub squares: &'a [f64],
    pub candidates: &'a [usize],
    pub sum: f64,
    pub squared: f64,
    pub t: usize,
    ghost short: { t ≤ max_readings },
    ghost sums_at_each: { length sums.now ≡ length candidates.now },
    ghost squares_at_each: { length squares.now ≡ length candidates.now },
    ghost below: { (j : ℕ) → j < length candidates.now → get_or candidates.now j 0 < t },
}

impl<'a> Channel<'a> {
    ghost use Rattle.inequality.specs.Inner.Weights.{segment_at};

    // The same of the `size` candidates from `first` on.
    pub(crate) fn rows(self, first: usize, size: usize) -> Channel<'a>
        requires { first + size ≤ length self.candidates.now }
        ensures many { length result.candidates.now ≡ size }
        ensures rows { (j : ℕ) → j < size → segment_at result j ≡ segment_at self.entry (first + j) }
    {
        let end = first + size;
        Channel {
            sums: &self.sums[first..end],
            squares: &self.squares[first..end],
            candidates: &self.candidates[first..end],
            sum: self.sum,
            squared: self.squared,
            t: self.t,
        }
    }
}

// The parts of the floats that hold sums, two of `w` floats for each channel, and the candidates that
// take part at `t`, in order.
#[derive(Clone, Copy)]
pub(crate) struct View<'a> {
    pub parts: &'a [f64],
    pub candidates: &'a [usize],
    pub w: usize,
    pub t: usize,
    ghost small: { w ≤ max_readings + 1 },
    ghost early: { t < w },
    ghost few: { length candidates.now ≤ t },
    ghost below: { (j : ℕ) → j < length candidates.now → get_or candidates.now j 0 < t },
}

impl<'a> View<'a> {
    ghost use Rattle.std.specs.Prelude.{◌*◌};
    ghost use Rattle.inequality.specs.Inner.Weights.{segment_at, segment_by};

    // The channel `c`.
    pub(crate) fn channel(self, c: usize) -> Channel<'a>
        requires { 2 * (c + 1) * self.w ≤ length self.parts.now }
        ensures candidates { result.candidates.now ≡ self.entry.candidates.now }
        ensures t { result.t ≡ self.entry.t }
        ensures rows { (j : ℕ) → j < length self.entry.candidates.now → segment_at result j ≡ segment_by self.entry.parts.now self.entry.w (2 * c * self.entry.w) j (get_or self.entry.candidates.now j 0) self.entry.t }
    {
        let first = 2 * c * self.w;
        let next = first + self.w;
        let many = self.candidates.len();
        Channel {
            sums: &self.parts[first..first + many],
            squares: &self.parts[next..next + many],
            candidates: self.candidates,
            sum: self.parts[first + self.t],
            squared: self.parts[next + self.t],
            t: self.t,
        }
    }
}
