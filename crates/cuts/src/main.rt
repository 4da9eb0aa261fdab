// The program `cuts`: tagged fields on standard input, the cuts or a refusal on standard output.
//
// All that it answers is `cuts_answer::answer`. It reads one byte more than an input may have, so that
// a longer one shows. A read that fails is never taken for the end of the input: the answer is then
// refusal 10, as for an input that is too long (`proofs/TooLong`). What could not be read or written is
// said on standard error.
#![tactic(auto)]

ghost use Rattle.std.specs.Prelude.{◌≡◌};
ghost use Rattle.cuts.specs.Inner.Input.{IsPrefixLen, taken_as};

use std::io;
use std::io::{Print, Read, Stderr, Stdin};

// One more than the bytes that an input may have.
const ROOM: usize = cuts_input::MOST_BYTES + 1;

// Prints `message` on standard error. There is nowhere to say it where that fails.
fn complain(err: &Stderr, message: &str) {
    let _unsaid = println!(err; "{message}");
}

// How many bytes are taken for the input, where `count` were read into room for `room` and the last
// read answered `got` and gave none: all of them, which is too many, where it failed. It is a count and no
// `Result`, since the clause `taken_as` has the failed read so.
fn taken(err: &Stderr, got: io::Result<usize>, count: usize, room: usize) -> usize
    ensures { result ≡ taken_as got count room }
{
    if got.is_err() {
        complain(err, "cuts: standard input could not be read");
        return room;
    }
    count
}

// Reads `source` into `input` until it is full, the input ends or a read fails, and says how many of
// its bytes are taken for the input.
fn read_input(mut source: Stdin, err: &Stderr, input: &mut [u8]) -> usize
    ensures { IsPrefixLen result input.new }
{
    let mut count = 0;
    // No `for`: a turn goes on by as many bytes as its read gave.
    while count < input.len() {
        let got = source.read(&mut input[count..]);
        let more = got.unwrap_or(0);
        if more == 0 {
            return taken(err, got, count, input.len());
        }
        count += more;
    }
    count
}

fn main(rt: HostRuntime) {
    let err = rt.stderr();
    let mut input = [0; ROOM];
    let count = read_input(rt.stdin(), &err, &mut input);
    let printed = cuts_answer::answer(&input[..count]);
    let bytes = printed.bytes;
    let length = printed.length;
    if rt.stdout().write_all(&bytes[..length]).is_err() {
        complain(&err, "cuts: the answer could not be written");
    }
}
