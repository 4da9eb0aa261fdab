// Clearing a part of a lent area: the part becomes zero, and the rest stays as it was. One function does it for
// areas of floats and of indices, each with a zero of its own.
//
// No function asks anything of its caller: a part that reaches past the area's end is clipped to the
// area. `specs/Cleared` says what an area holds afterwards; `specs/Parts` says what a part of it is.
#![tactic(auto)]

ghost use Rattle.std.specs.Prelude.{◌≡◌};
ghost use Rattle.floats.specs.Numbers.{+0};
ghost use Rattle.areas.specs.Cleared.{Cleared, stop_of};

// A number whose areas are cleared: its zero.
pub trait Zero: Copy {
    ghost zero: { Self };

    fn zero() -> Self
        ensures { result ≡ zero };
}

impl Zero for f64 {
    ghost zero = { +0 };

    fn zero() -> f64 {
        0.0
    }
}

impl Zero for usize {
    ghost zero = { 0 };

    fn zero() -> usize {
        0usize
    }
}

// The index where `place..place + size` ends in an area of `long` values: `place + size` clipped to
// `long`, and `place` itself where that is not below `long`. No sum is formed that could wrap.
fn stop(place: usize, size: usize, long: usize) -> usize
    ensures { result ≡ stop_of place size long }
{
    if place < long {
        if size < long - place {
            return place + size;
        }
        return long;
    }
    place
}

// Sets `area[place..place + size]` to zero, clipped to the area; the rest stays. Cost: one turn for each
// entry that is set.
pub fn clear<T: Zero>(area: &mut [T], place: usize, size: usize)
    ensures { Cleared T.zero area.old area.new place size }
{
    let end = stop(place, size, area.len());
    for i in place..end {
        area[i] = T::zero();
    }
}
