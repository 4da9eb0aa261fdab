// Comparing a piece, its sums and its costs with the stored ones.
ghost use Rattle.std.specs.Prelude.{◌<◌, ◌≤◌, length};

use crate::shown::{Kind, Value};
use costs::{CostFunction, Segment, segment_cost};
use replay_common::{Progress, Source, next_block, next_series, number};
use std::io;
use std::num::nearest_u64_to_f64;

// The running sums at both ends of a piece, and those of the squares: floats, or their bit patterns.
#[derive(Clone, Copy)]
struct Ends<T> {
    sum_before: T,
    sum_after: T,
    squares_before: T,
    squares_after: T,
}

impl From<[u8; 32]> for Ends<u64> {
    fn from(bytes: [u8; 32]) -> Ends<u64> {
        Ends {
            sum_before: number(&bytes[..8]),
            sum_after: number(&bytes[8..16]),
            squares_before: number(&bytes[16..24]),
            squares_after: number(&bytes[24..]),
        }
    }
}

// Where a piece stands, and what is stored of its channel, by bit patterns: the mean and the range. Then
// whether the piece has a spread, 1 or 0.
#[derive(Clone, Copy)]
struct Place {
    start: usize,
    end: usize,
    mean: u64,
    lowest: u64,
    highest: u64,
    has_spread: u64,
}

impl From<[u8; 29]> for Place {
    fn from(bytes: [u8; 29]) -> Place {
        Place {
            start: number(&bytes[..2]) as usize,
            end: number(&bytes[2..4]) as usize,
            mean: number(&bytes[4..12]),
            lowest: number(&bytes[12..20]),
            highest: number(&bytes[20..28]),
            has_spread: u64::from(bytes[28]),
        }
    }
}

// What is stored of a piece's summary and costs, by bit patterns.
#[derive(Clone, Copy)]
struct Answers {
    mean: u64,
    spread: u64,
    l2: u64,
    normal: u64,
}

// Compares the mean and the range of `channel` with what `place` has of them. +0 is added to each, so
// that a zero has no sign: the Rust leaves that sign open.
fn match_range(progress: Progress, channel: &[f64], place: Place) -> io::Result<Progress> {
    let mean = sums::mean(channel);
    let range = ranges::range_about(ranges::range_of(channel), mean);
    progress
        .matched_float(Value::ChannelMean as u64, 0, place.mean, mean + 0.0)?
        .matched_float(Value::Lowest as u64, 0, place.lowest, range.lo + 0.0)?
        .matched_float(Value::Highest as u64, 0, place.highest, range.hi + 0.0)
}

// The running sums of `channel` at `start` and at `end`.
fn ends_of(channel: &[f64], start: usize, end: usize) -> Ends<f64>
    requires { (start < end) × (end ≤ length channel.now) × (length channel.now ≤ 4096) }
{
    let mut area = [0.0; 8194];
    sums::cumulative_sums(channel, sums::mean(channel), &mut area, 0);
    let squares = channel.len() + 1;
    Ends {
        sum_before: area[start],
        sum_after: area[end],
        squares_before: area[squares + start],
        squares_after: area[squares + end],
    }
}

// Compares the running sums `got` with the stored ones, `expected`.
fn match_ends(progress: Progress, expected: Ends<u64>, got: Ends<f64>) -> io::Result<Progress> {
    progress
        .matched_float(
            Value::SumBefore as u64,
            0,
            expected.sum_before,
            got.sum_before,
        )?
        .matched_float(Value::SumAfter as u64, 0, expected.sum_after, got.sum_after)?
        .matched_float(
            Value::SquaresBefore as u64,
            0,
            expected.squares_before,
            got.squares_before,
        )?
        .matched_float(
            Value::SquaresAfter as u64,
            0,
            expected.squares_after,
            got.squares_after,
        )
}

// Compares the costs of the piece of `count` readings between `ends` with the stored ones of `answers`.
fn match_costs(
    progress: Progress,
    ends: Ends<f64>,
    count: usize,
    answers: Answers,
) -> io::Result<Progress> {
    let segment = Segment {
        length: nearest_u64_to_f64(count as u64),
        sum: ends.sum_after - ends.sum_before,
        sum_of_squares: ends.squares_after - ends.squares_before,
    };
    let l2 = segment_cost(CostFunction::L2, segment);
    let normal = segment_cost(CostFunction::Normal, segment);
    progress
        .matched_float(Value::L2Cost as u64, 0, answers.l2, l2)?
        .matched_float(Value::NormalCost as u64, 0, answers.normal, normal)
}

// Compares the running sums and the costs of the piece at `place`, if `channel` has it, with the stored
// ones of `running` and `answers`.
fn match_sums(
    progress: Progress,
    channel: &[f64],
    place: Place,
    running: Ends<u64>,
    answers: Answers,
) -> io::Result<Progress> {
    let start = place.start;
    let end = place.end;
    if end <= start || channel.len() < end || 4096 < channel.len() {
        return Ok(progress);
    }
    let ends = ends_of(channel, start, end);
    let matched = match_ends(progress, running, ends)?;
    match_costs(matched, ends, end - start, answers)
}

// Compares the `spread` of the piece at `place` with the stored one, which stands in `answers` where
// there is one.
fn match_spread(
    progress: Progress,
    spread: Option<f64>,
    place: Place,
    answers: Answers,
) -> io::Result<Progress> {
    let start = place.start;
    let stored = place.has_spread;
    let has = u64::from(spread.is_some());
    let matched = progress.matched(Value::HasSpread as u64, start, stored, has)?;
    match spread {
        None => Ok(matched),
        Some(value) => matched.matched_float(Value::Spread as u64, start, answers.spread, value),
    }
}

// Compares what `summary` answers for the piece of `channel` at `place` with what is stored: the length
// with the number `refusal` 32 bits higher, then mean and spread.
fn match_summary(
    progress: Progress,
    channel: &[f64],
    place: Place,
    refusal: u64,
    answers: Answers,
) -> io::Result<Progress> {
    let start = place.start;
    let refused = refusal << 32;
    match piece::summary(channel, start, place.end) {
        Ok(summary) => {
            let count = (place.end as u64).wrapping_sub(start as u64);
            let length = summary.length as u64;
            let matched = progress
                .matched(Value::Length as u64, start, refused | count, length)?
                .matched_float(Value::Mean as u64, start, answers.mean, summary.mean)?;
            match_spread(matched, summary.spread, place, answers)
        }
        Err(given) => progress.matched(Value::Length as u64, start, refused, given.number() << 32),
    }
}

// Replays the piece whose case has the four `values`.
pub(crate) fn replay_piece(
    progress: Progress,
    source: &mut Source,
    values: [u64; 4],
) -> io::Result<Progress> {
    let Some(series) = next_series(source)? else {
        return progress.stopped();
    };
    let Some(place) = next_block::<29>(source)? else {
        return progress.stopped();
    };
    let Some(running) = next_block::<32>(source)? else {
        return progress.stopped();
    };
    let channel = series.readings();
    let refusal = series.refusal.unwrap_or(0);
    let place = Place::from(place);
    let [mean, spread, l2, normal] = values;
    let answers = Answers {
        mean,
        spread,
        l2,
        normal,
    };
    let first = match_range(progress, channel, place)?;
    let second = match_summary(first, channel, place, refusal, answers)?;
    let third = match_sums(second, channel, place, Ends::from(running), answers)?;
    Ok(third.counted(Kind::Piece as usize))
}
