// The lent areas: what they hold before a call, and the first number of one that a call left otherwise
// than it should.
use floats::{from_bits, to_bits};
use std::num::nearest_usize_to_f64;

// The most that is lent of each area: room for 8 channels of 4,096 readings and for 320 slots, and some
// to spare.
pub(crate) const CUTS: usize = 2064;

pub(crate) const FLOATS: usize = 73776;

pub(crate) const INDICES: usize = 12312;

pub(crate) const POOL: usize = 64000;

// What stands in an area: a float or an index.
pub(crate) trait Stored: Copy {
    // What stands at `place` after a call that has `cleared` its area, and with `cleared` false before a
    // call and after one that leaves the area.
    fn left(cleared: bool, place: usize) -> Self;

    fn of_number(number: u64) -> Self;

    fn number(self) -> u64;
}

impl Stored for f64 {
    // Below 0 before a call, so that a search that reads it takes it for a low cost.
    fn left(cleared: bool, place: usize) -> f64 {
        if cleared {
            0.0
        } else {
            -0.5 - nearest_usize_to_f64(place)
        }
    }

    fn of_number(number: u64) -> f64 {
        from_bits(number)
    }

    fn number(self) -> u64 {
        to_bits(self)
    }
}

impl Stored for usize {
    // No index of a reading before a call.
    fn left(cleared: bool, place: usize) -> usize {
        if cleared { 0 } else { place % 1000 + 9000 }
    }

    fn of_number(number: u64) -> usize {
        number as usize
    }

    fn number(self) -> u64 {
        self as u64
    }
}

// Fills `area` with what stands there before a call. Cost: one turn for each place.
pub(crate) fn spoil<T: Stored>(area: &mut [T]) {
    for (place, lent) in area.iter_mut().enumerate() {
        *lent = T::left(false, place);
    }
}

// A difference: what was found at the index `place` of an area, and what was to be found there.
#[derive(Clone, Copy)]
pub(crate) struct Found {
    pub place: usize,
    pub expected: u64,
    pub got: u64,
}

// The first place of `area`, not below `from`, that is not as it is to be after a call, `cleared` or
// not. Cost: one turn for each place.
pub(crate) fn first_unlike<T: Stored>(area: &[T], from: usize, cleared: bool) -> Option<Found> {
    for (place, lent) in area.iter().enumerate().skip(from) {
        let expected = T::left(cleared, place).number();
        let got = lent.number();
        if expected != got {
            return Some(Found {
                place,
                expected,
                got,
            });
        }
    }
    None
}
