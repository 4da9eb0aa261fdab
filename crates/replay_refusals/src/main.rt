// Prints the number of every refusal, one a line in the order of the table of rule 2.1, for comparison
// with that table in `stdout`.
#![tactic(auto)]

use refusals::Refusal;
use std::io;

fn main(rt: HostRuntime) -> io::Result<()> {
    let refusals = [
        Refusal::Penalty,
        Refusal::MinLen,
        Refusal::Channels,
        Refusal::Shape,
        Refusal::Unequal,
        Refusal::TooLong,
        Refusal::Room,
        Refusal::NonFinite {
            channel: 0,
            index: 1,
        },
        Refusal::Pool,
        Refusal::Form,
        Refusal::Piece,
        Refusal::Target,
        Refusal::Sigma,
        Refusal::Weight,
        Refusal::Bound,
    ];
    for refusal in refusals {
        println!(rt; "{}", refusal.number())?;
    }
    Ok(())
}
