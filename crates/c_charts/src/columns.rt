// The walk of any chart over a series, each of whose records goes into columns that were lent.
ghost use Rattle.std.specs.Prelude.{◌≡◌, ◌<◌, ℕ, length};
ghost use Rattle.c_charts.specs.Inner.Walk.{answer_of, all_put};

use c_answers::Counted;
use charts::Chart;

// Lent arrays, one for each field of the record `R`: for how many records each has room, and what they
// hold once a record is written at an index.
pub(crate) trait Columns<R> {
    ghost room: { Self → ℕ };

    ghost put: { Self → ℕ → R → Self };

    fn room(&self) -> usize
        ensures { result ≡ room self.now };

    fn put(&mut self, i: usize, row: R)
        requires { i < room self.old }
        ensures { self.new ≡ put self.old i row };

    // A record that is written leaves the room.
    ghost keeps: { (s : Self) (i : ℕ) (row : R) → room (put s i row) ≡ room s };
}

// Writes the record of each reading of `data`, and tells how many there are, or the refusal, with which
// nothing is written. Cost: one step for each reading.
pub(crate) fn walk<C: Chart, W: Columns<C::Record>>(
    chart: C,
    data: &[f64],
    columns: &mut W,
) -> Counted
    ensures told { result ≡ answer_of (C.in_range chart) (length «data».now) (W.room columns.old) }
    ensures written { columns.new ≡ all_put C.in_range C.shown C.start C.next W.put W.room chart «data».now columns.old }
{
    let answer = charts::judge(chart, data.len(), columns.room());
    let n = answer.unwrap_or(0);
    let mut state = chart.start();
    for i in 0..n {
        state = chart.following(data, i, state);
        columns.put(i, C::shown(state));
    }
    c_answers::answered(answer)
}
