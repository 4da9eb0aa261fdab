// The pivot of a round: a value near the middle of a few that are spread over what is left. Nothing is
// promised of it but that it is a number without a sign.
ghost use Rattle.std.specs.Prelude.{◌≡◌, true, cond, ◌+◌, ◌*◌, ◌≤◌, ◌<◌, length};
ghost use Rattle.medians.specs.Inner.Ranks.{magnitude, itself};
ghost use Rattle.medians.specs.Inner.Rounds.{lower_of, upper_of};

use crate::magnitudes::Magnitudes;

// A number without a sign, by which a round splits what is left.
#[derive(Clone, Copy)]
pub(crate) struct Pivot {
    pub(crate) value: f64,
    ghost clear: { magnitude value ≡ true },
    ghost number: { itself value ≡ true },
}

// From how many values on 9 are looked at, and from how many 27.
const NINE: usize = 9;

const MANY: usize = 128;

// `value` where `test` holds, else `other`: a choice that takes no branch.
pub(crate) fn choose(test: bool, value: f64, other: f64) -> f64
    ensures { result ≡ cond test value other }
{
    if test { value } else { other }
}

// The lower of `x` and `y`, and the upper one, where both are numbers.
pub(crate) fn lower(x: f64, y: f64) -> f64
    ensures { result ≡ lower_of x y }
{
    choose(x < y, x, y)
}

pub(crate) fn upper(x: f64, y: f64) -> f64
    ensures { result ≡ upper_of x y }
{
    choose(x < y, y, x)
}

// The middle one of `x`, `y` and `z`, where they are numbers; else any of them.
fn middle_of(x: f64, y: f64, z: f64) -> f64
    requires { (magnitude x ≡ true) × (magnitude y ≡ true) × (magnitude z ≡ true) }
    ensures { magnitude result ≡ true }
{
    upper(lower(x, y), lower(z, upper(x, y)))
}

// `of_three`, `of_nine` and `of_many` look at 3, 9 and 27 values. One recursion over how often three are
// taken of three would do for them, and took 3.4 times as long over 27, as it is not inlined.

// The middle one of three values of `run`: the one at the index `at`, and those `step` before and behind.
fn of_three(run: Magnitudes, at: usize, step: usize) -> f64
    requires { (step ≤ at) × (at + step < length run.values.now) }
    ensures { magnitude result ≡ true }
{
    let values = run.values;
    middle_of(values[at - step], values[at], values[at + step])
}

// The middle one of three such, which look at nine values, `step` apart, around the index `at` of `run`.
fn of_nine(run: Magnitudes, at: usize, step: usize) -> f64
    requires { (4 * step ≤ at) × (at + 4 * step < length run.values.now) }
    ensures { magnitude result ≡ true }
{
    middle_of(
        of_three(run, at - 3 * step, step),
        of_three(run, at, step),
        of_three(run, at + 3 * step, step),
    )
}

// The middle one of three such, which look at 27 values, `step` apart, around the index `at` of `run`.
fn of_many(run: Magnitudes, at: usize, step: usize) -> f64
    requires { (13 * step ≤ at) × (at + 13 * step < length run.values.now) }
    ensures { magnitude result ≡ true }
{
    middle_of(
        of_nine(run, at - 9 * step, step),
        of_nine(run, at, step),
        of_nine(run, at + 9 * step, step),
    )
}

// A value of `run` near the middle of 3, 9 or 27 of them, by how many there are. They lie evenly around
// the middle place, so that of values in order the pivot is the middle one itself.
fn spread(run: Magnitudes) -> f64
    requires { 0 < length run.values.now }
    ensures { magnitude result ≡ true }
{
    let size = run.values.len();
    if size < NINE {
        return of_three(run, size / 2, size / 3);
    }
    if size < MANY {
        return of_nine(run, size / 2, size / 9);
    }
    of_many(run, size / 2, size / 27)
}

impl Pivot {
    // The pivot of a round over `run`; infinity where the middle one of the values that are looked at is NaN.
    pub(crate) fn of(run: Magnitudes) -> Pivot
        requires { 0 < length run.values.now }
    {
        let value = spread(run);
        if value == value {
            return Pivot { value };
        }
        Pivot {
            value: f64::INFINITY,
        }
    }
}
