// The limits: the place of a reading, how far they lie from the target there, and where they come to
// rest. The decay of a place, (1 - lambda)^(2 * place), is soon so small that 1 less it is 1, and at all
// later places the limits are the same to the bit. `proofs/AtRest` has the law.
ghost use Rattle.std.specs.Prelude.{◌≡◌, ◌≤◌, ◌<◌, ◌^◌};
ghost use Rattle.ewma.specs.Settled.{width_at, settled_from, moving_width, width_from, at_most, place_from, limits_at, limits_after};

use crate::{Edition, Ewma, Limits, Settled};
use charts::Place;

// How far the limits lie from the target where the statistic has the share `share` of its variance at
// rest.
pub(crate) fn width_at(chart: Ewma, share: f64) -> f64
    ensures { result ≡ width_at chart share }
{
    let asymptotic_var = chart.lambda / (2.0 - chart.lambda);
    let time_varying_var = asymptotic_var * share;
    chart.l_factor * chart.sigma * elementary::sqrt(time_varying_var)
}

// The first of the places 1, 2, 4 up to 4,096 whose decay is at most 2^-54, and 8,192 where none is.
// `decay` is that of place 1, and the square of a place's decay is that of twice the place. Cost: one
// turn for each place.
pub(crate) fn settled_from(decay: f64) -> usize
    ensures { result ≡ settled_from 13 1 decay }
{
    let mut place = 1;
    let mut faded = decay;
    for _turn in 0..13u64 {
        if faded <= f64::from_bits(0x3c90_0000_0000_0000) {
            return place;
        }
        faded = faded * faded;
        place = 2 * place;
    }
    place
}

// How far the limits lie from the target at `place`, where they have not settled: as far as at the last
// reading, of which `limits` speaks, if that had the same place, as at a gap of the second edition; and
// else by a power. Cost: one turn for each binary digit of `place`.
#[tactic(auto, unfolding(crate::specs::Settled::moving_width))]
fn moving_width(chart: Ewma, limits: Limits, place: Place) -> f64
    requires { place.0 ≤ 2 ^ 62 }
    ensures { result ≡ moving_width chart limits place }
{
    let last = limits.place;
    if place.0 == last.0 {
        return limits.half_width;
    }
    let decay = elementary::powi(1.0 - chart.lambda, (2 * place.0) as u64);
    width_at(chart, 1.0 - decay)
}

// How far the limits lie from the target at `place`, of a chart that stood at `limits` before.
fn width_from(chart: Ewma, limits: Limits, place: Place) -> f64
    requires { place.0 ≤ 2 ^ 62 }
    ensures { result ≡ width_from chart limits place }
{
    let settled = limits.settled;
    if settled.from <= place.0 {
        return settled.half_width;
    }
    moving_width(chart, limits, place)
}

// Where `chart` stands before the first reading: at place 0, whose decay is 1. Cost: at most 13 squares,
// for where the limits settle.
pub(crate) fn limits_at_first(chart: Ewma) -> Limits
    ensures { result ≡ limits_at chart (record { 0 = 0 }) }
{
    let kept = 1.0 - chart.lambda;
    let settled = Settled {
        from: settled_from(kept * kept),
        half_width: width_at(chart, 1.0),
    };
    Limits {
        place: Place(0),
        half_width: width_at(chart, 0.0),
        settled,
    }
}

// `place`, or `index` where that is less: no more than `index` readings had a place before the one there.
fn at_most(place: usize, index: usize) -> usize
    ensures { result ≡ at_most place index }
{
    place.min(index)
}

// The place of the reading `x` at `index` by the edition of `chart`, after the place `last`.
fn place_from(chart: Ewma, last: Place, index: usize, x: f64) -> Place
    requires { index < 2 ^ 61 }
    ensures { result ≡ place_from chart last index x }
{
    let edition = chart.edition;
    let before = at_most(last.0, index);
    match edition {
        Edition::First => Place(index + 1),
        Edition::Second => {
            if floats::finite(x) {
                Place(before + 1)
            } else {
                Place(before)
            }
        }
    }
}

// Where `chart` stands after the reading `x` at `index`, from where it stood before, `limits`.
pub(crate) fn limits_after(chart: Ewma, limits: Limits, index: usize, x: f64) -> Limits
    requires { index < 2 ^ 61 }
    ensures { result ≡ limits_after chart limits index x }
{
    let place = place_from(chart, limits.place, index, x);
    let half_width = width_from(chart, limits, place);
    let settled = limits.settled;
    Limits {
        place,
        half_width,
        settled,
    }
}
