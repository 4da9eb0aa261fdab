// Comparing what is stored of a run of channels.
use crate::penalties::Penalties;
use crate::segments::match_segments;
use crate::variances::{MOST, Room, match_sum, match_variances};
use replay_common::{Progress, Source, next_block, next_readings, number};
use std::io;

// Compares the sum of the noise variances of `run`, worked out in the area that `room` says, and the
// `penalties` that it gives with the stored ones; then what the input has next, the noise variances and
// the `segments`.
fn match_run(
    progress: Progress,
    source: &mut Source,
    run: &[f64],
    penalties: Penalties,
    room: Room,
    segments: usize,
) -> io::Result<Progress> {
    let n = penalties.n;
    let channels = penalties.channels;
    let first = match_sum(progress, run, penalties, room)?;
    let second = match_variances(first, source, run, n, channels, room)?;
    match_segments(second, source, run, n, channels, segments)
}

// Replays the run whose case has the four `values`.
pub(crate) fn replay_run(
    progress: Progress,
    source: &mut Source,
    values: [u64; 4],
) -> io::Result<Progress> {
    let Some(rest) = next_block::<22>(source)? else {
        return progress.stopped();
    };
    let count = number(&rest[12..14]) as usize;
    let size = number(&rest[16..18]) as usize;
    if 4096 < count || MOST < size {
        return progress.stopped();
    }
    let Some(series) = next_readings(source, count)? else {
        return progress.stopped();
    };
    let room = Room {
        place: number(&rest[14..16]) as usize,
        size,
        cleared: number(&rest[18..20]) as usize,
    };
    let penalties = Penalties::new(values, &rest);
    let segments = number(&rest[20..]) as usize;
    match_run(
        progress,
        source,
        series.readings(),
        penalties,
        room,
        segments,
    )
}
