// Comparing a run length with the stored one.
use charts::Sum;
use cusum::Cusum;
use refusals::Refusal;
use replay_common::{Kind, Progress, Source, Value, float, next_block, number};
use std::io;

// `answer` as one number: the reading at which the level is heard, or 0, or a refusal's number 32 bits
// higher and its values below, which for a level are 0 and 0.
fn in_one(answer: Result<Option<usize>, Refusal>) -> u64 {
    match answer {
        Ok(heard) => heard.unwrap_or(0) as u64,
        Err(refusal) => {
            let (channel, index) = refusal.values().unwrap_or((0, 0));
            refusal.number() << 32 | channel as u64 | index as u64
        }
    }
}

// Replays the run length that the input has next, by the sum `asked` of `chart`.
pub(crate) fn replay_run_length(
    progress: Progress,
    source: &mut Source,
    chart: Cusum,
    asked: Sum,
) -> io::Result<Progress> {
    let Some(bytes) = next_block::<11>(source)? else {
        return progress.stopped();
    };
    let answer = chart.run_length(float(&bytes[..8]), asked);
    let expected = u64::from(bytes[8]) << 32 | number(&bytes[9..]);
    let matched = progress.matched(Value::RunLength as u64, 0, expected, in_one(answer))?;
    Ok(matched.counted(Kind::RunLength as usize))
}
