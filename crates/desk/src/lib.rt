// What programs in other languages call: the static library that `rt lib` writes here defines
// each function here under its plain name, by C's conventions. `include/overbrindle.h` declares them.
//
// None asks anything of its caller. A contract names the definitions that what is returned, every
// single result and every lent slice afterwards are equal to, to the bit; NaN counts as one value.
// The functions only pass on: what they promise is proved in the crates that they call.
#![tactic(auto)]

ghost use Rattle.std.specs.Prelude.{◌≡◌, true, false, length};
ghost use Rattle.elementary.specs.Root.{sqrt};
ghost use Rattle.elementary.specs.Power.{powi};
ghost use Rattle.elementary.specs.Logarithm.{ln};
ghost use Rattle.noise.specs.Noise.{noise, Lent};
ghost use Rattle.piece.specs.Piece.{summarised_as};
ghost use Rattle.cusum.specs.Chart as Cusums;
ghost use Rattle.c_answers.specs.Told.{told_as, told_left, counted_as, counted_of, piece_as, piece_of, run_length_of};
ghost use Rattle.search_answer.specs.Outcome.{areas};
ghost use Rattle.c_search.specs.Asked.{told_search};
ghost use Rattle.c_charts.specs.CusumColumns.{cusum_arrays};
ghost use Rattle.c_charts.specs.Editions.{asked_points, settings_of};
ghost use Rattle.c_charts.specs.EwmaColumns.{ewma_arrays};

use c_charts::EwmaSettings;
use cusum::Cusum;

// The square root of `x`, rounded to the nearest.
#[unsafe(no_mangle)]
pub extern "C" fn overbrindle_sqrt(x: f64) -> f64
    ensures { result ≡ sqrt x }
{
    elementary::sqrt(x)
}

// `x` to the power `n` by right-to-left squaring.
#[unsafe(no_mangle)]
pub extern "C" fn overbrindle_powi(x: f64, n: u64) -> f64
    ensures { result ≡ powi x n }
{
    elementary::powi(x, n)
}

// The natural logarithm of `x`, by rule 4.3.
#[unsafe(no_mangle)]
pub extern "C" fn overbrindle_ln(x: f64) -> f64
    ensures { result ≡ ln x }
{
    elementary::ln(x)
}

// The cuts of a search over `readings` in channels of these `lengths`: their number in `count`, they
// themselves in the front of `cuts`. `cost` is 0 for L2, 1 for Normal; `penalty_kind` is 0 for BIC, 1
// for the custom penalty `penalty`. `channel` and `index` are 0 but for refusal 8.
#[unsafe(no_mangle)]
pub extern "C" fn overbrindle_detect_multi(
    cost: u32,
    penalty_kind: u32,
    penalty: f64,
    min_segment_len: usize,
    readings: &[f64],
    lengths: &[usize],
    cuts: &mut [usize],
    floats: &mut [f64],
    indices: &mut [usize],
    pool: &mut [f64],
    count: &mut usize,
    channel: &mut usize,
    index: &mut usize,
) -> u32
    ensures { (told_as result count.new channel.new index.new, areas cuts.new floats.new indices.new pool.new) ≡ told_search false cost penalty_kind penalty min_segment_len readings.now lengths.now (areas cuts.old floats.old indices.old pool.old) }
{
    let told = c_search::search(
        false,
        cost,
        penalty_kind,
        penalty,
        min_segment_len,
        readings,
        lengths,
        cuts,
        floats,
        indices,
        pool,
    );
    *count = told.count;
    *channel = told.channel;
    *index = told.index;
    told.number
}

// The same, but a reading that is not finite is refused, with its `channel` and `index`.
#[unsafe(no_mangle)]
pub extern "C" fn overbrindle_detect_multi_strict(
    cost: u32,
    penalty_kind: u32,
    penalty: f64,
    min_segment_len: usize,
    readings: &[f64],
    lengths: &[usize],
    cuts: &mut [usize],
    floats: &mut [f64],
    indices: &mut [usize],
    pool: &mut [f64],
    count: &mut usize,
    channel: &mut usize,
    index: &mut usize,
) -> u32
    ensures { (told_as result count.new channel.new index.new, areas cuts.new floats.new indices.new pool.new) ≡ told_search true cost penalty_kind penalty min_segment_len readings.now lengths.now (areas cuts.old floats.old indices.old pool.old) }
{
    let told = c_search::search(
        true,
        cost,
        penalty_kind,
        penalty,
        min_segment_len,
        readings,
        lengths,
        cuts,
        floats,
        indices,
        pool,
    );
    *count = told.count;
    *channel = told.channel;
    *index = told.index;
    told.number
}

// The piece `channel[start..end]`: how many readings it has in `readings`, their mean in `mean`, and their
// spread in `spread`, with 1 in `has_spread`, or 0 in both where there is none; zeros on a refusal.
#[unsafe(no_mangle)]
pub extern "C" fn overbrindle_piece_summary(
    channel: &[f64],
    start: usize,
    end: usize,
    readings: &mut usize,
    mean: &mut f64,
    has_spread: &mut u32,
    spread: &mut f64,
) -> u32
    ensures { piece_as result readings.new mean.new has_spread.new spread.new ≡ piece_of (summarised_as channel.now start end) }
{
    let told = c_answers::piece(piece::summary(channel, start, end));
    *readings = told.length;
    *mean = told.mean;
    *has_spread = told.has_spread;
    *spread = told.spread;
    told.number
}

// The records of a CUSUM chart over `data`, one array for each field, and in `count` how many there
// are; 0 on a refusal.
#[unsafe(no_mangle)]
pub extern "C" fn overbrindle_cusum_analyze(
    target: f64,
    sigma: f64,
    k: f64,
    h: f64,
    data: &[f64],
    s_upper: &mut [f64],
    s_lower: &mut [f64],
    side: &mut [u8],
    index: &mut [usize],
    count: &mut usize,
) -> u32
    ensures { (counted_as result count.new, s_upper.new, s_lower.new, side.new, index.new) ≡ cusum_arrays (Cusums.with_params target sigma k h) «data».now s_upper.old s_lower.old side.old index.old }
{
    let chart = Cusum {
        target,
        sigma,
        k,
        h,
    };
    let told = c_charts::cusum_analyze(chart, data, s_upper, s_lower, side, index);
    *count = told.count;
    told.number
}

// The indices of the readings of `data` that signal on a CUSUM chart, in the front of `points`, and in
// `count` how many there are; 0 on a refusal.
#[unsafe(no_mangle)]
pub extern "C" fn overbrindle_cusum_signal_points(
    target: f64,
    sigma: f64,
    k: f64,
    h: f64,
    data: &[f64],
    points: &mut [usize],
    count: &mut usize,
) -> u32
    ensures { (counted_as result count.new, points.new) ≡ told_left (Cusums.signalled (Cusums.with_params target sigma k h) «data».now points.old) }
{
    let chart = Cusum {
        target,
        sigma,
        k,
        h,
    };
    let told = c_answers::answered(chart.signal_points(data, points));
    *count = told.count;
    told.number
}

// The reading, from 1, at which a fresh CUSUM chart that is fed `level` alone first has the sum `asked`,
// 0 upper or 1 lower, above h; 0 where it has not within 4,096 readings, and on a refusal.
#[unsafe(no_mangle)]
pub extern "C" fn overbrindle_cusum_run_length(
    target: f64,
    sigma: f64,
    k: f64,
    h: f64,
    level: f64,
    asked: u32,
    reading: &mut usize,
) -> u32
    ensures { counted_as result reading.new ≡ counted_of (run_length_of (Cusums.with_params target sigma k h) level asked) }
{
    let chart = Cusum {
        target,
        sigma,
        k,
        h,
    };
    let told = c_answers::run_length(chart, level, asked);
    *reading = told.count;
    told.number
}

// The records of an EWMA chart over `data`, one array for each field, and in `count` how many there
// are; 0 on a refusal. `edition` is 1 or 2, and any other number is refusal 10, tried first.
#[unsafe(no_mangle)]
pub extern "C" fn overbrindle_ewma_analyze(
    target: f64,
    sigma: f64,
    lambda: f64,
    l_factor: f64,
    edition: u32,
    data: &[f64],
    ewma: &mut [f64],
    ucl: &mut [f64],
    lcl: &mut [f64],
    side: &mut [u8],
    index: &mut [usize],
    count: &mut usize,
) -> u32
    ensures { (counted_as result count.new, ewma.new, ucl.new, lcl.new, side.new, index.new) ≡ ewma_arrays (settings_of target sigma lambda l_factor edition) «data».now ewma.old ucl.old lcl.old side.old index.old }
{
    let asked = EwmaSettings {
        target,
        sigma,
        lambda,
        l_factor,
        edition,
    };
    let told = c_charts::ewma_analyze(asked, data, ewma, ucl, lcl, side, index);
    *count = told.count;
    told.number
}

// The indices of the readings of `data` that signal on an EWMA chart, in the front of `points`, and in
// `count` how many there are; 0 on a refusal. `edition` is 1 or 2, and any other number is refusal 10,
// tried first.
#[unsafe(no_mangle)]
pub extern "C" fn overbrindle_ewma_signal_points(
    target: f64,
    sigma: f64,
    lambda: f64,
    l_factor: f64,
    edition: u32,
    data: &[f64],
    points: &mut [usize],
    count: &mut usize,
) -> u32
    ensures { (counted_as result count.new, points.new) ≡ told_left (asked_points (settings_of target sigma lambda l_factor edition) «data».now points.old) }
{
    let asked = EwmaSettings {
        target,
        sigma,
        lambda,
        l_factor,
        edition,
    };
    let told = c_charts::ewma_signal_points(asked, data, points);
    *count = told.count;
    told.number
}

// The noise variance of `channel`, worked out in the part of `area` that begins at `place` and has one
// float fewer than `channel` has readings; that part is +0 afterwards. NaN where `area` has no room for
// it.
#[unsafe(no_mangle)]
pub extern "C" fn overbrindle_noise_variance(channel: &[f64], area: &mut [f64], place: usize) -> f64
    ensures { Lent (noise channel.now) (length channel.now) place area.old area.new result }
{
    noise::noise_variance(channel, area, place)
}
