// Replaying a chart: what it makes of a series is compared with what is stored of it, and then come
// calls that the Rust can't show.
ghost use Rattle.std.specs.Prelude.{◌≡◌, length};

use crate::answers::{
    Counts, Expected, Kind, UNUSED, compare_points, match_answers, next_expected,
};
use crate::cases::{Case, replay_cases};
use crate::input::{Source, next_series};
use crate::progress::Progress;
use refusals::Refusal;
use std::io;

// How many results are lent at most: one more than a chart takes readings.
const MOST: usize = 4097;

// A chart, and how its cases and its records are stored.
pub trait StoredChart: Copy {
    // What the chart says of a reading.
    type Record: Copy;

    // A record as numbers, its values by their bit patterns.
    type Fields: Copy;

    // The chart of a `case` that is a series; none of another one.
    fn of_case(case: Case) -> Option<Self>;

    // Replays a `case` that is no series.
    fn replay_other(progress: Progress, source: &mut Source, case: Case) -> io::Result<Progress>;

    // A chart that takes any reading, and one whose bound is out of range.
    fn accepted() -> Self;

    fn refused() -> Self;

    // What lent records are before a call: of no reading.
    fn unused() -> Self::Record;

    fn fields_of(record: Self::Record) -> Self::Fields;

    // The fields of the record that the input has next, if it has one.
    fn next_fields(source: &mut Source) -> io::Result<Option<Self::Fields>>;

    // Compares the fields `got` of the record at `place` with the `expected` ones.
    fn match_fields(
        progress: Progress,
        place: usize,
        expected: Self::Fields,
        got: Self::Fields,
    ) -> io::Result<Progress>;

    fn analyze(self, readings: &[f64], records: &mut [Self::Record]) -> Result<usize, Refusal>;

    fn signal_points(self, readings: &[f64], points: &mut [usize]) -> Result<usize, Refusal>;
}

// Compares the record `got`, which the lent ones have at `place`, with the one that the input has next
// if it is `stored`, and otherwise with what was there before the call.
fn compare_record<C: StoredChart>(
    progress: Progress,
    source: &mut Source,
    place: usize,
    got: C::Record,
    stored: bool,
) -> io::Result<Progress> {
    let fields = C::fields_of(got);
    if !stored {
        let matched = C::match_fields(progress, place, C::fields_of(C::unused()), fields)?;
        return Ok(matched.counted(Kind::Kept as usize));
    }
    let Some(expected) = C::next_fields(source)? else {
        return progress.stopped();
    };
    let matched = C::match_fields(progress, place, expected, fields)?;
    Ok(matched.counted(Kind::Record as usize))
}

// Compares the lent `records`, of which the first `stored` are stored in the input. Cost: one turn for
// each lent record.
fn compare_records<C: StoredChart>(
    mut progress: Progress,
    source: &mut Source,
    records: &[C::Record],
    stored: usize,
) -> io::Result<Progress> {
    for (place, got) in records.iter().enumerate() {
        progress = compare_record::<C>(progress, source, place, *got, place < stored)?;
    }
    Ok(progress)
}

// Makes the lent `points` and `records` what they are before a call. Cost: one turn for each of them.
fn spoil<C: StoredChart>(points: &mut [usize], records: &mut [C::Record]) {
    points.fill(UNUSED);
    for record in records.iter_mut() {
        *record = C::unused();
    }
}

// Compares what `chart` makes of `readings` in the lent `points` and `records` with what is `expected`
// and what the input has next, and counts the answers as one of the kind `kind`.
fn replay_answers<C: StoredChart>(
    progress: Progress,
    source: &mut Source,
    chart: C,
    readings: &[f64],
    kind: Kind,
    expected: Expected,
    points: &mut [usize],
    records: &mut [C::Record],
) -> io::Result<Progress> {
    spoil::<C>(points, records);
    let marked = chart.signal_points(readings, points);
    let charted = chart.analyze(readings, records);
    let counts = expected.unwrap_or_default();
    let answered = match_answers(progress, kind, expected, marked, charted)?;
    let compared = compare_points(answered, source, points, counts.points)?;
    compare_records::<C>(compared, source, records, counts.records)
}

// Replays the series that the input has next, by `chart`, in the lent `points` and `records`.
fn replay_series<C: StoredChart>(
    progress: Progress,
    source: &mut Source,
    chart: C,
    points: &mut [usize],
    records: &mut [C::Record],
) -> io::Result<Progress> {
    let Some(series) = next_series(source)? else {
        return progress.stopped();
    };
    let readings = series.readings();
    let Some(expected) = next_expected(source, series.refusal, readings.len())? else {
        return progress.stopped();
    };
    replay_answers(
        progress,
        source,
        chart,
        readings,
        Kind::Series,
        expected,
        points,
        records,
    )
}

// Compares what a chart whose settings are in range makes of `readings` with the refusal `number`, and
// what a chart makes of them whose bound is out of range, which is refused first.
fn replay_refused<C: StoredChart>(
    progress: Progress,
    source: &mut Source,
    readings: &[f64],
    number: u64,
    points: &mut [usize],
    records: &mut [C::Record],
) -> io::Result<Progress> {
    let first = replay_answers(
        progress.begun(),
        source,
        C::accepted(),
        readings,
        Kind::Limit,
        Err(number),
        points,
        records,
    )?;
    replay_answers(
        first.begun(),
        source,
        C::refused(),
        readings,
        Kind::Limit,
        Err(18),
        points,
        records,
    )
}

// Compares the answers of calls that the Rust can't show: more readings than a chart takes, or too
// little room, or both; and two readings with as much room. A refusal changes nothing that is lent. The
// cases' numbers go on from those of the stored ones, and nothing is stored of them in `source`.
fn replay_limits<C: StoredChart>(
    progress: Progress,
    source: &mut Source,
    points: &mut [usize; MOST],
    records: &mut [C::Record],
) -> io::Result<Progress>
    requires { length records.old ≡ 4097 }
{
    let long = [3.0; MOST];
    let mut after = replay_refused::<C>(progress, source, &long, 6, points, records)?;
    let points = &mut points[..2];
    let records = &mut records[..2];
    after = replay_refused::<C>(after, source, &long, 6, points, records)?;
    after = replay_refused::<C>(after, source, &long[..3], 7, points, records)?;
    let chart = C::accepted();
    let marked = chart.signal_points(&[9.0, 9.0], points);
    let charted = chart.analyze(&[9.0, 9.0], records);
    let counts = Counts {
        points: 2,
        records: 2,
    };
    match_answers(after.begun(), Kind::Limit, Ok(counts), marked, charted)
}

// Replays the case that the input has next, in the lent `points` and `records`.
fn replay_case<C: StoredChart>(
    progress: Progress,
    source: &mut Source,
    points: &mut [usize],
    records: &mut [C::Record],
) -> io::Result<Progress> {
    let mut bytes = [0; 33];
    let count = source.read_full(&mut bytes)?;
    if count == 0 {
        return Ok(progress.ended());
    }
    let begun = progress.begun();
    if count < 33 {
        return begun.stopped();
    }
    let case = Case::from(bytes);
    match C::of_case(case) {
        Some(chart) => replay_series(begun, source, chart, points, records),
        None => C::replay_other(begun, source, case),
    }
}

// Replays the stored cases of a chart and then calls at its limits, all in the lent `records`, and prints
// what was found.
pub fn replay_chart<C: StoredChart>(rt: &HostRuntime, records: &mut [C::Record]) -> io::Result<()>
    requires { length records.old ≡ 4097 }
{
    let mut source = Source::new(rt)?;
    let mut points = [UNUSED; MOST];
    let replayed = replay_cases(rt.stdout(), &mut source, |progress, source| {
        replay_case::<C>(progress, source, &mut points, records)
    })?;
    replay_limits::<C>(replayed, &mut source, &mut points, records)?.report()
}
