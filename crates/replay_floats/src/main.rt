// Replays the stored cases of the functions of `elementary` and `floats`, those of the logarithm also by
// `logarithms`: it shows the first cases whose result is not the stored one, to the bit, and says for
// each function how many there are. Values come and go as bit patterns, by `floats::from_bits` and
// `floats::to_bits`.
//
// The cases come from a program that shares no code with the crates, `tests/vectors/floats.rs`, by
// `tests/vectors/run`.
//
// A case is 25 bytes: a letter for the function, and then three numbers, the highest byte first: the bit
// pattern of x; n, an exponent or the bit pattern of a second value or 0; the result's bit pattern.
#![tactic(auto)]

mod case;
mod progress;
mod result;

use case::{Case, Fault};
use progress::Progress;
use replay_common::Source;
use std::io;
use std::io::Stdout;

// The next case of `source`, behind `read` others, if there is one. Why there is none is printed where
// the input has not ended.
fn next_case(out: &Stdout, source: &mut Source, read: u64) -> io::Result<Option<Case>> {
    let mut bytes = [0; 25];
    let found = match source.read_full(&mut bytes)? {
        0 => return Ok(None),
        25 => Case::try_from(bytes),
        _ => Err(Fault::CutShort),
    };
    match found {
        Ok(case) => Ok(Some(case)),
        Err(fault) => {
            println!(out; "after {read} cases {fault}")?;
            Ok(None)
        }
    }
}

// Replays the cases of `source`. The count ends the loop, since nothing says that the input does. No tally
// is ever above the number of cases read (`proofs/replay`).
fn replay(out: &Stdout, source: &mut Source) -> io::Result<Progress> {
    let mut progress = Progress::new();
    for read in 0..u64::MAX {
        let Some(case) = next_case(out, source, read)? else {
            break;
        };
        progress.replay(out, case)?;
    }
    Ok(progress)
}

fn main(rt: HostRuntime) -> io::Result<()> {
    let out = rt.stdout();
    let mut source = Source::new(&rt)?;
    let progress = replay(&out, &mut source)?;
    let Progress {
        sqrt,
        powi,
        ln,
        plain,
        lines: _,
    } = progress;
    println!(out; "sqrt {sqrt}")?;
    println!(out; "powi {powi}")?;
    println!(out; "ln and ln_each {ln}")?;
    println!(out; "max, min, abs and finite {plain}")
}
