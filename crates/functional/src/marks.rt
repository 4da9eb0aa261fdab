// The word that a candidate has beside its index: the number of its balls, and 128 more, its mark,
// where they are known to cut nothing from its box. Its balls never change, so that this stays known as
// long as the box does not change, and they need not be gone through.
ghost use Rattle.std.specs.Prelude.{◌≡◌, true, cond, ◌+◌, ◌≤◌, ◌*◌};
ghost use Rattle.candidate_balls.specs.Losing.{losing_balls};
ghost use Rattle.functional.specs.Inner.Held.{balls_in, SameBox};

use crate::MARK;
use candidate::Candidate;

// The word of a candidate whose box was narrowed and whose word was `word`: its mark is kept where the
// box `stayed` as it was.
pub(crate) fn remarked(word: usize, stayed: bool) -> usize
    ensures { result ≡ cond stayed word (balls_in word) }
{
    if stayed { word } else { word % MARK }
}

// The word of a candidate with `balls` balls: marked where its box is `uncut` by them.
pub(crate) fn marked(balls: usize, uncut: bool) -> usize
    requires { balls ≤ losing_balls }
    ensures { result ≡ cond uncut (balls + 2 * losing_balls) balls }
{
    if uncut { balls + MARK } else { balls }
}

// Whether `a` and `b` are the same to the bit: zeros of either sign differ, and NaN is like nothing. No
// bit pattern is asked of a NaN.
fn same_number(a: f64, b: f64) -> bool
    ensures { result ≡ true → a ≡ b }
{
    a == b && a.to_bits() == b.to_bits()
}

// Whether the boxes `a` and `b` have the same numbers.
pub(crate) fn same_box(a: Candidate, b: Candidate) -> bool
    ensures { result ≡ true → SameBox a b }
{
    same_number(a.lo[0], b.lo[0])
        & same_number(a.hi[0], b.hi[0])
        & same_number(a.lo[1], b.lo[1])
        & same_number(a.hi[1], b.hi[1])
}
