// Comparing penalties with the stored ones.
ghost use Rattle.std.specs.Prelude.{◌≤◌, length};

use crate::shown::{Kind, Value};
use costs::{CostFunction, Penalty, resolve_penalty};
use replay_common::{Progress, Source, next_block, number};
use std::io;

// What is stored of the penalties of `channels` channels with `n` readings each: the sum of the noise
// variances that they go by, a custom value, and the three penalties, as bit patterns.
#[derive(Clone, Copy)]
pub(crate) struct Penalties {
    pub n: usize,
    pub channels: usize,
    pub custom: u64,
    pub noise: u64,
    pub l2: u64,
    pub normal: u64,
    pub own: u64,
}

impl Penalties {
    // What the four `values` of a case and the first 12 bytes of `rest` say.
    pub(crate) fn new(values: [u64; 4], rest: &[u8]) -> Penalties
        requires { 12 ≤ length rest.now }
    {
        let [custom, noise, l2, normal] = values;
        Penalties {
            n: number(&rest[..2]) as usize,
            channels: number(&rest[2..4]) as usize,
            custom,
            noise,
            l2,
            normal,
            own: number(&rest[4..12]),
        }
    }

    // Compares the three penalties where the noise variances add up to `noise`.
    pub(crate) fn compare(self, progress: Progress, noise: f64) -> io::Result<Progress> {
        let n = self.n;
        let channels = self.channels;
        let custom = Penalty::Custom(floats::from_bits(self.custom));
        let l2 = resolve_penalty(Penalty::Bic, CostFunction::L2, n, channels, noise);
        let normal = resolve_penalty(Penalty::Bic, CostFunction::Normal, n, channels, noise);
        let own = resolve_penalty(custom, CostFunction::L2, n, channels, noise);
        let matched = progress
            .matched_float(Value::L2Penalty as u64, n, self.l2, l2)?
            .matched_float(Value::NormalPenalty as u64, n, self.normal, normal)?
            .matched_float(Value::CustomPenalty as u64, n, self.own, own)?;
        Ok(matched.counted(Kind::Penalty as usize))
    }
}

// Replays the penalty whose case has the four `values`.
pub(crate) fn replay_penalty(
    progress: Progress,
    source: &mut Source,
    values: [u64; 4],
) -> io::Result<Progress> {
    let Some(rest) = next_block::<12>(source)? else {
        return progress.stopped();
    };
    let penalties = Penalties::new(values, &rest);
    penalties.compare(progress, floats::from_bits(penalties.noise))
}
