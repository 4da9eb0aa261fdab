// Replays stored inputs of the program `cuts` through `cuts_answer::answer`, of which the program is
// made, and compares what it answers byte for byte: the length of the output, its bytes, and the zeros
// behind them. It shows the first differences, and says how many there are of each kind of output: 1 to
// 10 are the refusals, 11 answers without a cut, 12 answers with cuts. Value 0 is the first index at
// which the outputs differ, or how many bytes an output may have where none does, and value 1 the length
// of the output.
//
// `tests/vectors/run` makes standard input; the first lines of `tests/vectors/fields.rs` say what
// a case is made of.
#![tactic(auto)]

mod stored;

use cuts_answer::Printed;
use replay_common::{Progress, Source, next_number, replay_cases};
use std::io;
use stored::{Kind, OUTPUT, next_bytes};

// The letters of the records of standard input: a case, and the end.
const CASE: u64 = b'c' as u64;

const END: u64 = b'e' as u64;

// The first index at which `expected` and `got` differ, or their length where none does. Cost: one turn
// for each byte.
fn first_unlike(expected: &[u8; OUTPUT], got: &[u8; OUTPUT]) -> usize {
    expected
        .iter()
        .zip(got)
        .position(|(stored, printed)| stored != printed)
        .unwrap_or(OUTPUT)
}

// Compares the output `printed` with the stored one, `expected`, which has `length` bytes.
fn compare(
    progress: Progress,
    expected: &[u8; OUTPUT],
    length: usize,
    printed: Printed,
) -> io::Result<Progress> {
    let at = first_unlike(expected, &printed.bytes);
    let matched = progress
        .matched(0, 0, OUTPUT as u64, at as u64)?
        .matched(1, 0, length as u64, printed.length as u64)?;
    Ok(matched.counted(usize::from(Kind::of(expected))))
}

// Replays the next case: an input, and the output that it is to have.
fn replay_case(progress: Progress, source: &mut Source) -> io::Result<Progress> {
    let mut input = [0; OUTPUT];
    let Some(size) = next_bytes(source, &mut input)? else {
        return progress.stopped();
    };
    let mut expected = [0; OUTPUT];
    let Some(length) = next_bytes(source, &mut expected)? else {
        return progress.stopped();
    };
    compare(
        progress,
        &expected,
        length,
        cuts_answer::answer(&input[..size]),
    )
}

// Replays what `source` has next: a case, or the end.
fn replay_record(progress: Progress, source: &mut Source) -> io::Result<Progress> {
    match next_number::<1>(source)? {
        Some(CASE) => replay_case(progress.begun(), source),
        Some(END) => Ok(progress.ended()),
        _ => progress.begun().stopped(),
    }
}

fn main(rt: HostRuntime) -> io::Result<()> {
    let mut source = Source::new(&rt)?;
    replay_cases(rt.stdout(), &mut source, replay_record)?.report()
}
