// Comparing what a call answered, and what it left in the lent areas, with what is stored.
use crate::calls::Call;
use crate::lent::{Found, first_unlike, spoil};
use crate::run::Run;
use refusals::Refusal;
use replay_common::{Progress, Source, next_number};
use std::io;

// The kinds of what is compared: see `main`. The others follow from the stored call.
#[derive(Clone, Copy)]
enum Kind {
    Cut = 8,
    CutsArea,
    Cleared,
    Left,
}

// The number of an answer among the values.
const ANSWER: u64 = 12;

// `n` in two bytes: 65,535, which no stored number is, for any number that is not below that.
fn short(n: usize) -> u64 {
    (n as u64).min(65535)
}

// `answer` as it is stored, in one number.
fn in_one(answer: Result<usize, Refusal>) -> u64 {
    match answer {
        Ok(cuts) => short(cuts),
        Err(refusal) => {
            let (channel, index) = refusal.values().unwrap_or((0, 0));
            refusal.number() << 48 | short(channel) << 32 | short(index) << 16
        }
    }
}

// Counts something as one of the kind `kind`, which differs where a difference was `found`.
fn compared(progress: Progress, kind: Kind, found: Option<Found>) -> io::Result<Progress> {
    let Some(found) = found else {
        return Ok(progress.tallied(kind as usize, false));
    };
    let matched = progress.matched(kind as u64, found.place, found.expected, found.got)?;
    Ok(matched.tallied(kind as usize, true))
}

// Compares the cut `got`, with the index `place` among the cuts, with the one that the input has next.
fn match_cut(
    progress: Progress,
    source: &mut Source,
    place: usize,
    got: usize,
) -> io::Result<Progress> {
    let Some(expected) = next_number::<2>(source)? else {
        return progress.stopped();
    };
    let got = got as u64;
    let found = Found {
        place,
        expected,
        got,
    };
    let differs = expected != got;
    compared(
        progress,
        Kind::Cut,
        if differs { Some(found) } else { None },
    )
}

// Compares the cuts area: `cuts` has the `stored` cuts of the input at its front, and the rest is to be
// as it was. Cost: one turn for each cut.
fn match_cuts(
    mut progress: Progress,
    source: &mut Source,
    stored: usize,
    cuts: &[usize],
) -> io::Result<Progress> {
    if cuts.len() < stored {
        return progress.stopped();
    }
    for (place, got) in cuts[..stored].iter().enumerate() {
        progress = match_cut(progress, source, place, *got)?;
    }
    compared(progress, Kind::CutsArea, first_unlike(cuts, stored, false))
}

// Compares the work areas `floats`, `indices` and `pool`: all of each is to be zero if `cleared`, and as
// it was otherwise.
fn match_areas(
    progress: Progress,
    cleared: bool,
    floats: &[f64],
    indices: &[usize],
    pool: &[f64],
) -> io::Result<Progress> {
    let kind = if cleared { Kind::Cleared } else { Kind::Left };
    let first = compared(progress, kind, first_unlike(floats, 0, cleared))?;
    let second = compared(first, kind, first_unlike(indices, 0, cleared))?;
    compared(second, kind, first_unlike(pool, 0, cleared))
}

// Fills the lent areas with junk, searches `run` in them as `call` says, and compares all that is stored of
// the call. Refusals before 9 change no work area.
pub(crate) fn replay_call(
    progress: Progress,
    source: &mut Source,
    call: Call,
    run: &Run,
    cuts: &mut [usize],
    floats: &mut [f64],
    indices: &mut [usize],
    pool: &mut [f64],
) -> io::Result<Progress> {
    spoil(cuts);
    spoil(floats);
    spoil(indices);
    spoil(pool);
    let answer = call.search(run.readings(), run.lengths(), cuts, floats, indices, pool);
    let cleared = matches!(call.refusal(), 0 | 9);
    let stored = (call.stored % 65536) as usize;
    let first = progress
        .begun()
        .matched(ANSWER, 0, call.stored, in_one(answer))?;
    let second = match_cuts(first, source, stored, cuts)?;
    let third = match_areas(second, cleared, floats, indices, pool)?;
    let tallied = third.tallied(call.function as usize, third.unlike);
    Ok(tallied.counted(call.outcome()))
}
