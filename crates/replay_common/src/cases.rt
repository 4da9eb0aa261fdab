// The loop of the programs, one case after the other, and how most cases begin.
ghost use Rattle.std.specs.Prelude.{◌≡◌, false, IfOk};

use crate::input::{Source, number};
use crate::progress::Progress;
use std::io;
use std::io::Stdout;

// How a case begins: a letter, and the bit patterns of four values.
#[derive(Clone, Copy)]
pub struct Case {
    pub letter: u8,
    pub values: [u64; 4],
}

impl From<[u8; 33]> for Case {
    fn from(bytes: [u8; 33]) -> Case {
        Case {
            letter: bytes[0],
            values: [
                number(&bytes[1..9]),
                number(&bytes[9..17]),
                number(&bytes[17..25]),
                number(&bytes[25..]),
            ],
        }
    }
}

// Replays the cases of `source`, each by a call of `replay_case`, until there is none more. The count
// ends the loop, since nothing says that the input does.
pub fn replay_cases<F: FnMut(Progress, &mut Source) -> io::Result<Progress>>(
    out: Stdout,
    source: &mut Source,
    mut replay_case: F,
) -> io::Result<Progress>
    requires { F.IsAlwaysCallable replay_case }
    ensures { IfOk result (λ progress. progress.more ≡ false) }
{
    let mut progress = Progress::new(out);
    for _ in 0..u64::MAX {
        progress = replay_case(progress, source)?;
        if !progress.more {
            return Ok(progress);
        }
    }
    Ok(progress.ended())
}
