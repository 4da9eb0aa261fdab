// Any chart over a series: its settings are tested, and then a state goes from reading to reading, and
// shows each reading's record.
ghost use Rattle.std.specs.Prelude.{◌≡◌, ℕ, Float, length};
ghost use Rattle.charts.specs.declared.InRange.{InRange};
ghost use Rattle.charts.specs.declared.Side.{Side};
ghost use Rattle.charts.specs.Answers.{admitted_as};
ghost use Rattle.charts.specs.Outcomes.{analyzed, signalled};
ghost use Rattle.charts.specs.Runs as Runs;
ghost use Rattle.charts.specs.Settings.{setting_tests};
ghost use Rattle.charts.specs.Sides.{signals};

use crate::{InRange, Side, admitted, note, signals, tested};
use refusals::Refusal;

// The settings of a chart, and how it goes from reading to reading.
pub trait Chart: Copy {
    type State: Copy;

    type Record: Copy;

    // Which settings are in range.
    ghost in_range: { Self → InRange };

    // The run: the state before the first reading, the one after another, and the record that a state shows.
    ghost start: { Self → Self.State };

    ghost next: { Self → Self.State → ℕ → Float → Self.State };

    ghost shown: { Self.State → Self.Record };

    // On which side a record signals.
    ghost side: { Self.Record → Side };

    fn in_range(self) -> InRange
        ensures { result ≡ in_range self };

    fn start(self) -> Self::State
        ensures { result ≡ start self };

    // The state after the reading `data[i]`, from the `state` before it; the same state where there is no
    // such reading.
    fn following(self, data: &[f64], i: usize, state: Self::State) -> Self::State
        ensures { result ≡ Runs.following next self «data».now i state };

    fn shown(state: Self::State) -> Self::Record
        ensures { result ≡ shown state };

    fn side(row: Self::Record) -> Side
        ensures { result ≡ side row };
}

// What `analyze` answers for `readings` readings and room for `room` results.
pub fn judge<C: Chart>(chart: C, readings: usize, room: usize) -> Result<usize, Refusal>
    ensures { result ≡ admitted_as (setting_tests (C.in_range chart)) readings room }
{
    admitted(tested(chart.in_range()), readings, room)
}

// Writes a record for each reading of `data` to the front of `records`, and leaves the others; a refusal
// changes nothing. Cost: one step for each reading.
pub fn analyze<C: Chart>(
    chart: C,
    data: &[f64],
    records: &mut [C::Record],
) -> Result<usize, Refusal>
    ensures { (result, records.new) ≡ analyzed (setting_tests (C.in_range chart)) (length «data».now) (Runs.records C.shown C.start C.next chart «data».now) records.old }
{
    let n = judge(chart, data.len(), records.len())?;
    let mut state = chart.start();
    for i in 0..n {
        state = chart.following(data, i, state);
        records[i] = C::shown(state);
    }
    Ok(n)
}

// Writes the index of each reading of `data` that signals to the front of `points`, which needs room for
// as many as there are readings, and leaves the others; a refusal changes nothing. The series bounds the
// loop, so that no reading is looked for beyond it. Cost: one step for each reading.
pub fn signal_points<C: Chart>(
    chart: C,
    data: &[f64],
    points: &mut [usize],
) -> Result<usize, Refusal>
    ensures { (result, points.new) ≡ signalled (setting_tests (C.in_range chart)) (length «data».now) (Runs.points C.shown C.start C.next chart «data».now (λ r. signals (C.side r)) (length «data».now)) points.old }
{
    judge(chart, data.len(), points.len())?;
    let mut state = chart.start();
    let mut count = 0;
    for i in 0..data.len() {
        state = chart.following(data, i, state);
        count = note(signals(C::side(C::shown(state))), i, count, points);
    }
    Ok(count)
}
