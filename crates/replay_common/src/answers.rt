// Comparing the answers that are alike for all charts: numbers of results, refusals, and indices.
use crate::input::{Source, next_number};
use crate::progress::Progress;
use refusals::Refusal;
use std::io;

// What lent indices are before a call: no index of a reading.
pub(crate) const UNUSED: usize = 9999;

// The kinds that are counted: the answers for a series, its records and its indices, the lent records
// and indices that a call has to leave alone, answers at a limit that no stored case has, and of a
// CUSUM chart the run lengths.
#[derive(Clone, Copy)]
pub enum Kind {
    Series,
    Record,
    Point,
    Kept,
    Limit,
    RunLength,
}

// What is compared beside the fields of a record, whose values have the numbers below: the answers of
// `signal_points` and `analyze`, an index, a lent index behind the last, and a run length.
#[derive(Clone, Copy)]
pub enum Value {
    Marked = 5,
    Charted,
    Point,
    Kept,
    RunLength,
}

// How many signal indices and how many records a call is to write.
#[derive(Clone, Copy, Default)]
pub(crate) struct Counts {
    pub points: usize,
    pub records: usize,
}

// What a call is to answer: its counts, or the number of its refusal.
pub(crate) type Expected = Result<Counts, u64>;

// `answer` as one number: how many results there are, or a refusal's number 32 bits higher.
fn in_one(answer: Result<usize, u64>) -> u64 {
    match answer {
        Ok(count) => count as u64,
        Err(number) => number << 32,
    }
}

// Compares the answers of `signal_points` and `analyze`, `marked` and `charted`, with what is
// `expected`, and counts them as one of the kind `kind`.
pub(crate) fn match_answers(
    progress: Progress,
    kind: Kind,
    expected: Expected,
    marked: Result<usize, Refusal>,
    charted: Result<usize, Refusal>,
) -> io::Result<Progress> {
    let points = expected.map(|counts| counts.points);
    let records = expected.map(|counts| counts.records);
    let both = progress
        .matched(
            5,
            0,
            in_one(points),
            in_one(marked.map_err(Refusal::number)),
        )?
        .matched(
            6,
            0,
            in_one(records),
            in_one(charted.map_err(Refusal::number)),
        )?;
    Ok(both.counted(kind as usize))
}

// What the input says next that a chart is to answer for `readings` readings, where the number of its
// refusal is `refusal`: as many records, and the next number of indices.
pub(crate) fn next_expected(
    source: &mut Source,
    refusal: Option<u64>,
    readings: usize,
) -> io::Result<Option<Expected>> {
    if let Some(number) = refusal {
        return Ok(Some(Err(number)));
    }
    let Some(points) = next_number::<2>(source)? else {
        return Ok(None);
    };
    Ok(Some(Ok(Counts {
        points: points as usize,
        records: readings,
    })))
}

// Compares the index `got`, which the lent ones have at `place`, with the one that the input has next if
// it is `stored`, and otherwise with what was there before the call.
fn compare_point(
    progress: Progress,
    source: &mut Source,
    place: usize,
    got: usize,
    stored: bool,
) -> io::Result<Progress> {
    if !stored {
        let matched = progress.matched(Value::Kept as u64, place, UNUSED as u64, got as u64)?;
        return Ok(matched.counted(Kind::Kept as usize));
    }
    let Some(expected) = next_number::<2>(source)? else {
        return progress.stopped();
    };
    let matched = progress.matched(Value::Point as u64, place, expected, got as u64)?;
    Ok(matched.counted(Kind::Point as usize))
}

// Compares the lent indices `points`, of which the first `stored` are stored in the input. Cost: one
// turn for each lent index.
pub(crate) fn compare_points(
    mut progress: Progress,
    source: &mut Source,
    points: &[usize],
    stored: usize,
) -> io::Result<Progress> {
    for (place, got) in points.iter().enumerate() {
        progress = compare_point(progress, source, place, *got, place < stored)?;
    }
    Ok(progress)
}
