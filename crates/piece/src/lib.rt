// The summary of a piece of one channel (rules 6.1 and 6.2): how many readings, their mean, and how far
// they spread.
//
// Every call ends with a summary or refusal 6 or 12, and asks nothing of its caller. `specs/Piece`
// has the definition that the answer equals, `specs/Spread` that of the spread, and `summarised`, what
// it says in the rules' numbers, is stated by the law `summarised_said`; mean and cost are those of the
// search. A spread is never below 0, and one reading has none: `proofs/SpreadLaws`, of the call. It needs
// no lent room.
#![tactic(auto)]

mod segment_of;
mod spread_of;

ghost use Rattle.std.specs.Prelude.{◌≡◌, ◌<◌, ◌≤◌, length};
ghost use Rattle.piece.specs.Piece.{summary_of, summarised_as};

use costs::l2_cost;
use refusals::{MAX_READINGS, Refusal};
use segment_of::segment_of;
use spread_of::spread_of;
use sums::mean;

// A piece: `length` readings, their `mean`, and how far they spread: their variance, the L2 cost divided
// by the length less one. A single reading has no `spread`.
#[derive(Clone, Copy)]
pub struct PieceSummary {
    pub length: usize,
    pub mean: f64,
    pub spread: Option<f64>,
}

// The summary of `channel[start..end]`, by the sums of that segment about the mean of `channel`: so it
// takes the whole channel, and no slice of it.
#[tactic(auto, using(crate::proofs::PieceLaws::summary_from))]
fn summarise(channel: &[f64], start: usize, end: usize) -> PieceSummary
    requires { (start < end) × (end ≤ length channel.now) }
    ensures { result ≡ summary_of channel.now start end }
{
    let centre = mean(channel);
    let segment = segment_of(channel, centre, start, end);
    let count = end - start;
    PieceSummary {
        length: count,
        mean: segment.sum / segment.length + centre,
        spread: spread_of(count, l2_cost(segment)),
    }
}

// The summary of the piece `channel[start..end]`, or a refusal: 6 for more readings than the limit, 12
// for no such piece. Cost: one pass over `channel` for its mean, and one up to `end`.
#[tactic(auto, unfolding(crate::specs::Piece::summarised_as, crate::specs::Piece::piece_tests, refusals::specs::Tried::tried))]
pub fn summary(channel: &[f64], start: usize, end: usize) -> Result<PieceSummary, Refusal>
    ensures { result ≡ summarised_as channel.now start end }
{
    if MAX_READINGS < channel.len() {
        return Err(Refusal::TooLong);
    }
    if end <= start || channel.len() < end {
        return Err(Refusal::Piece);
    }
    Ok(summarise(channel, start, end))
}
