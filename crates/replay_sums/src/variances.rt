// Comparing noise variances and their sum with the stored ones, and what the calls leave in the area
// that is lent to them.
ghost use Rattle.std.specs.Prelude.{◌≤◌};

use crate::penalties::Penalties;
use crate::shown::{Kind, Value};
use floats::to_bits;
use noise::{noise_sum, noise_variance};
use readings::channel_of;
use replay_common::{Progress, Source, next_number};
use std::io;

// The most floats that are lent: room for the differences of 4,096 readings, and some to spare.
pub(crate) const MOST: usize = 4104;

// What each lent float is before a call.
const UNUSED: f64 = 9999.0;

// An area of `size` floats is lent, the differences stand in it at `place`, and `cleared` of them are +0
// after the call.
#[derive(Clone, Copy)]
pub(crate) struct Room {
    pub place: usize,
    pub size: usize,
    pub cleared: usize,
    ghost fits: { size ≤ 4104 },
}

impl Room {
    // The bit pattern of what the float with the index `place` is to be after a call.
    fn left_at(self, place: usize) -> u64 {
        match place.checked_sub(self.place) {
            Some(behind) if behind < self.cleared => 0,
            _ => to_bits(UNUSED),
        }
    }
}

// Compares each float of `area` after a call with what `room` says. Cost: one turn for each float.
fn match_places(mut progress: Progress, room: Room, area: &[f64]) -> io::Result<Progress> {
    for (place, got) in area.iter().enumerate() {
        let matched = progress.matched_float(Value::Lent as u64, place, room.left_at(place), *got)?;
        progress = matched.counted(Kind::Lent as usize);
    }
    Ok(progress)
}

// Compares `area` after a call with what `room` says, and counts the call's answer, number `index`, as
// one of the kind `kind`. The cleared floats are counted too, for the room may say that there are some
// behind the last.
fn match_area(
    progress: Progress,
    kind: Kind,
    index: usize,
    room: Room,
    area: &[f64],
) -> io::Result<Progress> {
    let zeros = area.iter().filter(|got| to_bits(**got) == 0).count();
    let matched = progress.matched(
        Value::Cleared as u64,
        index,
        room.cleared as u64,
        zeros as u64,
    )?;
    match_places(matched.counted(kind as usize), room, area)
}

// Compares the sum of the noise variances of `run`, worked out in an unused area where `room` says, and
// the `penalties` that it gives with the stored ones.
pub(crate) fn match_sum(
    progress: Progress,
    run: &[f64],
    penalties: Penalties,
    room: Room,
) -> io::Result<Progress> {
    let n = penalties.n;
    let mut floats = [UNUSED; MOST];
    let area = &mut floats[..room.size];
    let sum = noise_sum(run, n, penalties.channels, area, room.place);
    let matched = progress.matched_float(Value::VarianceSum as u64, n, penalties.noise, sum)?;
    let left = match_area(matched, Kind::VarianceSum, n, room, area)?;
    penalties.compare(left, sum)
}

// Compares the noise variance of `channel`, the channel `k`, worked out in an unused area where `room`
// says, with the one that the input has next.
fn match_variance(
    progress: Progress,
    source: &mut Source,
    channel: &[f64],
    k: usize,
    room: Room,
) -> io::Result<Progress> {
    let Some(expected) = next_number::<8>(source)? else {
        return progress.stopped();
    };
    let mut floats = [UNUSED; MOST];
    let area = &mut floats[..room.size];
    let variance = noise_variance(channel, area, room.place);
    let matched = progress.matched_float(Value::Variance as u64, k, expected, variance)?;
    match_area(matched, Kind::Variance, k, room, area)
}

// Compares the noise variances of the `channels` channels of `run`, of `n` readings each, with those
// that the input has next, each in an unused area as `room` says. Cost: one turn for each channel.
pub(crate) fn match_variances(
    mut progress: Progress,
    source: &mut Source,
    run: &[f64],
    n: usize,
    channels: usize,
    room: Room,
) -> io::Result<Progress> {
    for k in 0..channels {
        let channel = channel_of(run, channels, n, k);
        progress = match_variance(progress, source, channel, k, room)?;
    }
    Ok(progress)
}
