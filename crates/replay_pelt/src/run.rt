// The readings and the lengths that the calls search, until the input has others.
ghost use Rattle.std.specs.Prelude.{◌≤◌, length, IfOk, IfSome};

use crate::lent::Stored;
use replay_common::{Source, next_number};
use std::io;

// The most readings and lengths: 8 channels of 4,096 readings, and some to spare.
const READINGS: usize = 32776;

const CHANNELS: usize = 16;

// `count` readings at the front of `area`, and `channels` lengths at the front of `lengths`. No Vec: a
// program allocates one buffer, for standard input, and nothing else (docs/ASSUMPTIONS.md).
#[derive(Drop)]
pub(crate) struct Run {
    area: [f64; READINGS],
    count: usize,
    lengths: [usize; CHANNELS],
    channels: usize,
    ghost readings_fit: { count ≤ 32776 },
    ghost lengths_fit: { channels ≤ 16 },
}

// Reads the next numbers to the front of `area`: how many there are, in `N` bytes, and each of them.
// Returns how many; none where the input ends before, or `area` has too little room. Cost: one turn for
// each number.
fn next_front<T: Stored, const N: usize>(
    source: &mut Source,
    area: &mut [T],
) -> io::Result<Option<usize>>
    requires { N ≤ 2 }
    ensures { IfOk result (λ read. IfSome read (λ count. count ≤ length area.new)) }
{
    let Some(count) = next_number::<N>(source)? else {
        return Ok(None);
    };
    let count = count as usize;
    if area.len() < count {
        return Ok(None);
    }
    for lent in area[..count].iter_mut() {
        let Some(number) = next_number::<8>(source)? else {
            return Ok(None);
        };
        *lent = T::of_number(number);
    }
    Ok(Some(count))
}

impl Run {
    // No readings and no lengths.
    pub(crate) fn new() -> Run {
        Run {
            area: [0.0; READINGS],
            count: 0,
            lengths: [0; CHANNELS],
            channels: 0,
        }
    }

    pub(crate) fn readings(&self) -> &[f64] {
        &self.area[..self.count]
    }

    pub(crate) fn lengths(&self) -> &[usize] {
        &self.lengths[..self.channels]
    }

    // Takes the readings that the input has next; false where they are not whole.
    pub(crate) fn next_readings(&mut self, source: &mut Source) -> io::Result<bool> {
        let Some(count) = next_front::<f64, 2>(source, &mut self.area)? else {
            return Ok(false);
        };
        self.count = count;
        Ok(true)
    }

    // Takes the lengths that the input has next; false where they are not whole.
    pub(crate) fn next_lengths(&mut self, source: &mut Source) -> io::Result<bool> {
        let Some(channels) = next_front::<usize, 1>(source, &mut self.lengths)? else {
            return Ok(false);
        };
        self.channels = channels;
        Ok(true)
    }
}
