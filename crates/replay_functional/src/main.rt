// Two functional searches of ramps in which candidates lose inside more than 64 balls: the
// predecessors, one a line, for comparison with those of `partition_functional` of pelt.rs in
// `stdout` (tests/vectors/functional.rs). They are too large to evaluate in a proof.
#![tactic(auto)]

ghost use Rattle.std.specs.Prelude.{◌<◌, length};

use functional::partition_functional;
use std::io;
use std::io::Stdout;
use std::num::nearest_u64_to_f64;

// The reading at `i` of a run of channels with `n` readings each, of which channel c is a ramp with
// steps of 5c + 1.
fn ramp_at(i: usize, n: usize) -> f64 {
    if n == 0 {
        return 0.0;
    }
    let step = 5.0 * nearest_u64_to_f64((i / n) as u64) + 1.0;
    nearest_u64_to_f64((i % n) as u64) * step
}

// Fills `run` with ramps of `n` readings each. Cost: one turn for each reading.
fn ramps(run: &mut [f64], n: usize) {
    for (i, reading) in run.iter_mut().enumerate() {
        *reading = ramp_at(i, n);
    }
}

// Prints `predecessors`, one a line. Cost: one turn for each line.
fn print_each(out: &Stdout, predecessors: &[usize]) -> io::Result<()> {
    for predecessor in predecessors {
        println!(out; "{predecessor}")?;
    }
    Ok(())
}

// Fills `run` with ramps on `channels` channels of `n` readings each, searches it with the lent `floats`
// and `indices`, and prints whether there were slots enough and the predecessors.
fn search(
    out: &Stdout,
    n: usize,
    channels: usize,
    run: &mut [f64],
    floats: &mut [f64],
    indices: &mut [usize],
) -> io::Result<()>
    requires { n < length indices.old }
{
    let mut pool = [0.0; 22000];
    ramps(run, n);
    let enough = partition_functional(1000000.0, run, n, channels, 2, floats, indices, &mut pool);
    let found = if enough { "enough" } else { "too few" };
    println!(out; "slots {found}")?;
    print_each(out, &indices[..n + 1])
}

fn main(rt: HostRuntime) -> io::Result<()> {
    let out = rt.stdout();
    search(
        &out,
        300,
        1,
        &mut [0.0; 300],
        &mut [0.0; 1204],
        &mut [0; 903],
    )?;
    search(
        &out,
        200,
        2,
        &mut [0.0; 400],
        &mut [0.0; 1206],
        &mut [0; 603],
    )
}
