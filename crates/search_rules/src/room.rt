// What a search asks of the run and of the lent areas.
ghost use Rattle.std.specs.Prelude.{◌≡◌, ◌≤◌};
ghost use Rattle.refusals.specs.Limits.{max_channels, max_readings};
ghost use Rattle.search_rules.specs.Room.{series_fits, room_fits, search_fits};

use refusals::{MAX_CHANNELS, MAX_READINGS};

// Whether a run of `run` readings has `channels` channels of `n` readings, within the limits of a call,
// and `m` is at least 1 and at most `n`. The limits are tested first, so that no product wraps.
#[tactic(auto, using(readings::proofs::ChannelLaws::small_product), unfolding(crate::specs::Room::series_fits))]
fn series_fits(run: usize, n: usize, channels: usize, m: usize) -> bool
    ensures { result ≡ series_fits run n channels m }
{
    channels <= MAX_CHANNELS && n <= MAX_READINGS && channels * n <= run && 1 <= m && m <= n
}

// Whether areas of `floats` floats and `indices` indices are room enough for a search of `channels`
// channels of `n` readings.
#[tactic(auto, using(crate::proofs::RoomLaws::floats_small), unfolding(crate::specs::Room::room_fits))]
fn room_fits(n: usize, channels: usize, floats: usize, indices: usize) -> bool
    requires { (channels ≤ max_channels) × (n ≤ max_readings) }
    ensures { result ≡ room_fits n channels floats indices }
{
    (2 * channels + 2) * (n + 1) <= floats && 3 * (n + 1) <= indices
}

// Whether a run of `run` readings has `channels` channels of `n` readings, within the limits of a call,
// `m` is at least 1 and at most `n`, and areas of `floats` floats and `indices` indices are room enough
// for the search.
#[tactic(auto, using(crate::proofs::RoomLaws::series), unfolding(crate::specs::Room::search_fits))]
pub fn search_fits(
    run: usize,
    n: usize,
    channels: usize,
    m: usize,
    floats: usize,
    indices: usize,
) -> bool
    ensures { result ≡ search_fits run n channels m floats indices }
{
    series_fits(run, n, channels, m) && room_fits(n, channels, floats, indices)
}
