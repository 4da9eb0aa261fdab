// Replays stored searches through the four public searches of `pelt`: the answers are the Rust's, or by
// docs/RULES.md where the Rust has none. Compared are the answer, a refusal's number with its
// channel and index among it, the cuts at the front of the cuts area, that the rest of it is as it was,
// and every lent work float, index and pool float: zero after an answer and after refusal 9, and as it
// was after any other refusal. The areas hold junk before each call. It shows the first differences, and
// says how many there are of each kind:
//
//     0 to 3    searches by detect, detect_multi, detect_strict, detect_multi_strict
//     4 to 7    answers for L2 by BIC, L2 with a custom penalty, Normal by BIC, Normal with a custom one
//     8, 9      cuts, and cuts areas behind the last cut
//     10, 11    work areas that are to be cleared, and that are to be as they were
//     12 to 20  refusals 1 to 9
//
// A search differs if anything in it does. A difference is shown with the kind of what differs as its
// value, and 12 for an answer: the refusal's number in a byte, the channel and the index of refusal 8
// and the number of cuts in two each.
//
// `tests/vectors/run` makes standard input; the first lines of `tests/vectors/searches.rs` say what
// a record is made of.
#![tactic(auto)]

mod answers;
mod calls;
mod lent;
mod run;

use answers::replay_call;
use calls::Call;
use lent::{CUTS, FLOATS, INDICES, POOL};
use replay_common::{Progress, Source, next_block, replay_cases};
use run::Run;
use std::io;

// The call that `source` has next, if it is one.
fn next_call(source: &mut Source) -> io::Result<Option<Call>> {
    let Some(bytes) = next_block::<39>(source)? else {
        return Ok(None);
    };
    Ok(Call::try_from(bytes).ok())
}

// Replays what `source` has next behind a `letter` that is no call's: readings or lengths, which go to
// `run`, or the end.
fn replay_other(
    progress: Progress,
    source: &mut Source,
    letter: u8,
    run: &mut Run,
) -> io::Result<Progress> {
    let whole = match letter {
        b'r' => run.next_readings(source)?,
        b'l' => run.next_lengths(source)?,
        b'e' => return Ok(progress.ended()),
        _ => false,
    };
    if whole {
        Ok(progress)
    } else {
        progress.stopped()
    }
}

// Replays the record that `source` has next: a call, in the lent areas, or what stands between calls.
// The areas are no struct: the proof that Rattle makes lends one field of a struct at a time.
fn replay_record(
    progress: Progress,
    source: &mut Source,
    run: &mut Run,
    cuts: &mut [usize; CUTS],
    floats: &mut [f64; FLOATS],
    indices: &mut [usize; INDICES],
    pool: &mut [f64; POOL],
) -> io::Result<Progress> {
    let Some(first) = next_block::<1>(source)? else {
        return progress.stopped();
    };
    let letter = first[0];
    if letter != b'c' {
        return replay_other(progress, source, letter, run);
    }
    let Some(call) = next_call(source)? else {
        return progress.stopped();
    };
    let room = call.room;
    replay_call(
        progress,
        source,
        call,
        run,
        &mut cuts[..room.cuts],
        &mut floats[..room.floats],
        &mut indices[..room.indices],
        &mut pool[..room.pool],
    )
}

fn main(rt: HostRuntime) -> io::Result<()> {
    let mut source = Source::new(&rt)?;
    let mut run = Run::new();
    let mut cuts = [0; CUTS];
    let mut floats = [0.0; FLOATS];
    let mut indices = [0; INDICES];
    let mut pool = [0.0; POOL];
    let replayed = replay_cases(rt.stdout(), &mut source, |progress, source| {
        replay_record(
            progress,
            source,
            &mut run,
            &mut cuts,
            &mut floats,
            &mut indices,
            &mut pool,
        )
    })?;
    replayed.report()
}
