// The range of a channel: its lowest and its highest reading, NaNs passed over.
//
// No function asks anything of its caller. Each result is, to the bit, that of the definition which
// its contract names (`specs/Ranges`). Blocks of readings that lie within the range so far are
// passed over, which `specs/Inner/Blocks` says and `proofs/RangeLaws` shows to change nothing.
#![tactic(auto)]

ghost use Rattle.std.specs.Prelude.{◌≡◌};
ghost use Rattle.std.specs.List.{list_any};
ghost use Rattle.ranges.specs.Inner.Blocks.{beyond, with_reading, taken_in};
ghost use Rattle.ranges.specs.Ranges.{range_of, about};

// The lowest and the highest of some readings, `lo` and `hi`.
#[derive(Clone, Copy)]
pub struct Range {
    pub lo: f64,
    pub hi: f64,
}

// Whether `reading` is below `range` or above it.
fn is_beyond(range: Range, reading: f64) -> bool
    ensures { result ≡ beyond range reading }
{
    (reading < range.lo) | (range.hi < reading)
}

// Whether one of the readings of `block` is beyond `range`. Cost: at most one turn for each of them.
fn any_beyond(range: Range, block: &[f64]) -> bool
    ensures { result ≡ list_any (beyond range) block.now }
{
    block.iter().any(|reading| is_beyond(range, *reading))
}

// `range` with `reading` taken in. Neither value of a range is ever NaN, so that one comparison of each
// is enough; NaN is passed over.
fn with_reading(range: Range, reading: f64) -> Range
    ensures { result ≡ with_reading range reading }
{
    Range {
        lo: if reading < range.lo {
            reading
        } else {
            range.lo
        },
        hi: if range.hi < reading {
            reading
        } else {
            range.hi
        },
    }
}

// `range` with the readings of `block` taken in. Cost: one turn for each of them.
fn taken_in(range: Range, block: &[f64]) -> Range
    ensures { result ≡ taken_in range block.now }
{
    block
        .iter()
        .fold(range, |range, reading| with_reading(range, *reading))
}

// The same, where a block of readings within `range` is passed over: few blocks of a channel have
// others, and to look whether one has takes far less time than to take it in.
fn range_after(range: Range, block: &[f64]) -> Range
    ensures { result ≡ taken_in range block.now }
{
    if any_beyond(range, block) {
        return taken_in(range, block);
    }
    range
}

// How many readings are passed over at once where they lie within the range so far.
const BLOCK: usize = 64;

// The lowest and the highest reading of `channel`, NaNs passed over; +infinity and -infinity where there
// is no reading but NaNs. Cost: one turn for each block of 64 readings.
pub fn range_of(channel: &[f64]) -> Range
    ensures { result ≡ range_of channel.now }
{
    let mut range = Range {
        lo: f64::INFINITY,
        hi: f64::NEG_INFINITY,
    };
    for block in channel.chunks(BLOCK) {
        range = range_after(range, block);
    }
    range
}

// `range` on the scale of the running sums: both its values less `mean`.
pub fn range_about(range: Range, mean: f64) -> Range
    ensures { result ≡ about range mean }
{
    Range {
        lo: range.lo - mean,
        hi: range.hi - mean,
    }
}
