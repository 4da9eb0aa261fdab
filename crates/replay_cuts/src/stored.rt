// Reading what a case is made of, bytes with their number in front; and the kind of an output.
ghost use Rattle.std.specs.Prelude.{◌≤◌, length, IfOk, IfSome};

use replay_common::{Source, next_number};
use std::io;

// How many bytes an output may have. No stored input has more.
pub(crate) const OUTPUT: usize = 10841;

// Reads the next bytes of the input, their number in 2 bytes and each of them, to the front of `area`,
// and says how many they are; none where the input has not all of them, or `area` is too short.
pub(crate) fn next_bytes(source: &mut Source, area: &mut [u8]) -> io::Result<Option<usize>>
    ensures { IfOk result (λ found. IfSome found (λ size. size ≤ length area.old)) }
{
    let Some(wanted) = next_number::<2>(source)? else {
        return Ok(None);
    };
    let size = wanted as usize;
    if area.len() < size {
        return Ok(None);
    }
    let count = source.read_full(&mut area[..size])?;
    if count < size {
        return Ok(None);
    }
    Ok(Some(size))
}

// What an output says: the number of a refusal, or whether there are cuts.
#[derive(Clone, Copy)]
pub(crate) enum Kind {
    Refused(usize),
    NoCuts,
    Cuts,
}

impl Kind {
    // The kind of `output`: for a refusal the number behind its word, which is one digit or 10.
    pub(crate) fn of(output: &[u8; OUTPUT]) -> Kind {
        match *output {
            [b'r', ..] if output[9] == b'0' => Kind::Refused(10),
            [b'r', ..] => Kind::Refused(usize::from(output[8] % 16)),
            [_, _, _, _, _, b'0', ..] => Kind::NoCuts,
            _ => Kind::Cuts,
        }
    }
}

// The number under which a kind is counted.
impl From<Kind> for usize {
    fn from(kind: Kind) -> usize {
        match kind {
            Kind::Refused(number) => number,
            Kind::NoCuts => 11,
            Kind::Cuts => 12,
        }
    }
}
