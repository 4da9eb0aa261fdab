// The running sums of a channel.
ghost use Rattle.std.specs.Prelude.{◌≡◌, ◌+◌, ◌*◌, ◌≤◌, length};
ghost use Rattle.sums.specs.Sums.{Summed, Ran, two_runs};

// Whether an area of `size` floats has room at `place` for two parts of `n` + 1 floats; no sum is formed
// that could wrap.
#[tactic(auto, using(crate::proofs::SumLaws::half_room, crate::proofs::SumLaws::no_room))]
fn two_runs(size: usize, n: usize, place: usize) -> bool
    ensures { result ≡ two_runs size n place }
{
    place <= size && n < (size - place) / 2
}

// Sets the part of `area` at `place` to the sums of the first 0, 1, .. readings of `channel`, each less
// `mean`, and the part behind it to the sums of their squares. Cost: one turn for each reading.
pub(crate) fn run_on(channel: &[f64], mean: f64, area: &mut [f64], place: usize)
    requires { place + 2 * (length channel.now + 1) ≤ length area.old }
    ensures { Summed channel.now mean (length channel.now) area.old area.new place }
{
    let squares_place = place + (channel.len() + 1);
    area[place] = 0.0;
    area[squares_place] = 0.0;
    let mut sum = 0.0;
    let mut sum_of_squares = 0.0;
    for (i, reading) in channel.iter().enumerate() {
        let y = *reading - mean;
        sum += y;
        sum_of_squares += y * y;
        area[place + (i + 1)] = sum;
        area[squares_place + (i + 1)] = sum_of_squares;
    }
}

// Sets the `channel.len() + 1` floats of `area` at `place` to the sums of the first 0, 1, .. readings of
// `channel`, each less `mean`, and as many floats behind them to the sums of their squares. Where `area`
// has no room for both, it stays as it was.
#[tactic(auto, using(crate::proofs::SumLaws::has_room, crate::proofs::SumLaws::ran_written, crate::proofs::SumLaws::ran_unchanged))]
pub fn cumulative_sums(channel: &[f64], mean: f64, area: &mut [f64], place: usize)
    ensures { Ran channel.now mean area.old area.new place }
{
    if two_runs(area.len(), channel.len(), place) {
        run_on(channel, mean, area, place);
    }
}
