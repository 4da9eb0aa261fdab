// Comparing the costs of segments, added over the channels of a run, with the stored ones.
use crate::shown::{Kind, Value};
use costs::{CostFunction, cost_of};
use replay_common::{Progress, Source, next_block, number};
use std::io;

// Compares the costs of the segment that the input has next, the one with the number `index`: `sums` has
// the running sums of `channels` channels of `n` readings.
fn match_segment(
    progress: Progress,
    source: &mut Source,
    sums: &[f64],
    n: usize,
    channels: usize,
    index: usize,
) -> io::Result<Progress> {
    let Some(bytes) = next_block::<20>(source)? else {
        return progress.stopped();
    };
    let start = number(&bytes[..2]) as usize;
    let end = number(&bytes[2..4]) as usize;
    let l2 = cost_of(CostFunction::L2, sums, n, channels, start, end);
    let normal = cost_of(CostFunction::Normal, sums, n, channels, start, end);
    let matched = progress
        .matched_float(Value::L2Cost as u64, index, number(&bytes[4..12]), l2)?
        .matched_float(
            Value::NormalCost as u64,
            index,
            number(&bytes[12..]),
            normal,
        )?;
    Ok(matched.counted(Kind::Segment as usize))
}

// Compares the costs of the `segments` segments of `run` that the input has next, over its `channels`
// channels of `n` readings. The area has room for the sums of any 8 channels with 4,096 readings in all.
// Cost: one turn for each segment.
pub(crate) fn match_segments(
    mut progress: Progress,
    source: &mut Source,
    run: &[f64],
    n: usize,
    channels: usize,
    segments: usize,
) -> io::Result<Progress> {
    let mut sums = [0.0; 8208];
    sums::channel_sums(run, n, channels, &mut sums);
    for index in 0..segments {
        progress = match_segment(progress, source, &sums, n, channels, index)?;
    }
    Ok(progress)
}
