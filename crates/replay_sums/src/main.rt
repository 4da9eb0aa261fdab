// Replays stored answers of the Rust's sums, ranges, L2 costs and noise variances, piece summaries that
// follow from them, and Normal costs and penalties by the logarithm of rule 4.3: it shows the first values
// that are not the stored ones, to the bit, and says how many there are of each kind, and how many
// differ. Values come and go as bit patterns, by `floats::from_bits` and `floats::to_bits`.
//
// The kinds are 0 for pieces, 1 for penalties, 2 for noise variances, 3 for sums of them, 4 for lent
// floats, and 5 for segments of channels. The values of each are shown by these numbers (`shown`):
//
//     0 to 2    of a piece its refusal and length, its mean and its spread
//     3 to 5    of its channel the mean, the lowest and the highest value
//     6 to 9    the running sums at start and end, and those of the squares
//     10, 11    the L2 cost and the Normal cost of a piece, or of a segment over the channels
//     12 to 14  the penalty by BIC for L2 and for Normal, and a custom one
//     15 to 18  a noise variance, a sum of them, how many lent floats are cleared, and a lent float
//     19        whether a piece has a spread, 1 or 0
//
// `tests/vectors/run` makes standard input; the first lines of `tests/vectors/sums.rs` say what
// a case is made of.
#![tactic(auto)]

mod penalties;
mod pieces;
mod runs;
mod segments;
mod shown;
mod variances;

use penalties::replay_penalty;
use pieces::replay_piece;
use replay_common::{Case, Progress, Source, next_block, replay_cases};
use runs::replay_run;
use std::io;

// Replays the case that `source` has next. An `e` is the last.
fn replay_case(progress: Progress, source: &mut Source) -> io::Result<Progress> {
    let begun = progress.begun();
    let Some(bytes) = next_block::<33>(source)? else {
        return begun.stopped();
    };
    let Case { letter, values } = Case::from(bytes);
    match letter {
        b's' => replay_piece(begun, source, values),
        b'q' => replay_penalty(begun, source, values),
        b'r' => replay_run(begun, source, values),
        b'e' => Ok(begun.ended()),
        _ => begun.stopped(),
    }
}

fn main(rt: HostRuntime) -> io::Result<()> {
    let mut source = Source::new(&rt)?;
    replay_cases(rt.stdout(), &mut source, replay_case)?.report()
}
