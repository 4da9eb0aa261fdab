// Reading a case from standard input. Numbers are written with their highest byte first. What the input
// ends before is none; a read that fails is an error, and never the end of the input.
ghost use Rattle.std.specs.Prelude.{◌≡◌, ◌^◌, ◌<◌, ◌≤◌, length, take, IfOk};

use std::io;
use std::io::{BufReader, Read, Stdin};

// What the cases are read from: standard input, in blocks.
#[derive(Drop)]
pub struct Source {
    reader: BufReader<Stdin>,
}

// A series of `count` readings, at the front of `area`, and the number of its refusal, if it is refused.
// No Vec: a program allocates one buffer, for standard input, and nothing else (docs/ASSUMPTIONS.md).
#[derive(Drop)]
pub struct Series {
    pub area: [f64; 4096],
    pub count: usize,
    pub refusal: Option<u64>,
    ghost fits: { count ≤ 4096 },
}

impl Series {
    // The readings of the series.
    pub fn readings(&self) -> &[f64]
        ensures { result.now ≡ take self.now.count self.now.area }
    {
        &self.area[..self.count]
    }
}

// The number that `bytes` write. Cost: one turn for each byte.
pub fn number(bytes: &[u8]) -> u64 {
    bytes
        .iter()
        .fold(0, |value, byte| value << 8 | u64::from(*byte))
}

// The float whose bit pattern `bytes` write.
pub fn float(bytes: &[u8]) -> f64 {
    floats::from_bits(number(bytes))
}

impl Source {
    // Standard input, of which nothing was read yet.
    pub fn new(rt: &HostRuntime) -> io::Result<Source> {
        let reader = BufReader::new(rt.alloc(), rt.stdin())?;
        Ok(Source { reader })
    }

    // Reads until `area` is full or the input ends, and says how many bytes it put at the front of
    // `area`. Cost: one turn for each read.
    pub fn read_full(&mut self, area: &mut [u8]) -> io::Result<usize>
        ensures { IfOk result (λ count. count ≤ length area.new) }
    {
        let mut done = 0;
        // No `for`: a turn goes on by as many bytes as its read gave.
        while done < area.len() {
            let got = self.reader.read(&mut area[done..])?;
            if got == 0 {
                return Ok(done);
            }
            done += got;
        }
        Ok(done)
    }
}

// The next `N` bytes of the input, if it has as many.
pub fn next_block<const N: usize>(source: &mut Source) -> io::Result<Option<[u8; N]>> {
    let mut bytes = [0; N];
    let count = source.read_full(&mut bytes)?;
    if count < N {
        return Ok(None);
    }
    Ok(Some(bytes))
}

// The number that the next `N` bytes of the input write, if it has as many.
pub fn next_number<const N: usize>(source: &mut Source) -> io::Result<Option<u64>>
    requires { N < 2 ^ 63 }
{
    let Some(bytes) = next_block::<N>(source)? else {
        return Ok(None);
    };
    Ok(Some(number(&bytes)))
}

// The next `count` readings of the input, as a series without a refusal. Cost: one turn for each.
pub fn next_readings(source: &mut Source, count: usize) -> io::Result<Option<Series>>
    requires { count ≤ 4096 }
{
    let mut area = [0.0; 4096];
    for reading in area[..count].iter_mut() {
        let Some(pattern) = next_number::<8>(source)? else {
            return Ok(None);
        };
        *reading = floats::from_bits(pattern);
    }
    Ok(Some(Series {
        area,
        count,
        refusal: None,
    }))
}

// The next series: the number of its readings, each of them, and the number of the refusal, or 0.
pub fn next_series(source: &mut Source) -> io::Result<Option<Series>> {
    let Some(count) = next_number::<2>(source)? else {
        return Ok(None);
    };
    if 4096 < count {
        return Ok(None);
    }
    let Some(mut series) = next_readings(source, count as usize)? else {
        return Ok(None);
    };
    let Some(refusal) = next_number::<1>(source)? else {
        return Ok(None);
    };
    series.refusal = if refusal == 0 { None } else { Some(refusal) };
    Ok(Some(series))
}
