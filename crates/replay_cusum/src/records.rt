// How a CUSUM chart's cases and records are stored.
use crate::run_length::replay_run_length;
use charts::{Observation, Side, Sum};
use cusum::{Cusum, CusumResult};
use floats::{from_bits, to_bits};
use refusals::Refusal;
use replay_common::{Case, Progress, Source, StoredChart, next_block, number};
use std::io;

// A chart whose answers are stored.
#[derive(Clone, Copy)]
pub(crate) struct Stored(Cusum);

// A record as numbers, its values by their bit patterns. The `mark` is the index, and 32 bits higher the
// number of the side.
#[derive(Clone, Copy)]
pub(crate) struct Fields {
    s_upper: u64,
    s_lower: u64,
    mark: u64,
}

impl From<CusumResult> for Fields {
    fn from(record: CusumResult) -> Fields {
        Fields {
            s_upper: to_bits(record.s_upper),
            s_lower: to_bits(record.s_lower),
            mark: u64::from(u8::from(record.side)) << 32 | record.index.0 as u64,
        }
    }
}

impl From<[u8; 19]> for Fields {
    fn from(bytes: [u8; 19]) -> Fields {
        Fields {
            s_upper: number(&bytes[..8]),
            s_lower: number(&bytes[8..16]),
            mark: u64::from(bytes[16]) << 32 | number(&bytes[17..]),
        }
    }
}

// What lent records are before a call: the index is none of a reading.
pub(crate) const UNUSED: CusumResult = CusumResult {
    s_upper: -7.0,
    s_lower: -9.0,
    side: Side::Both,
    index: Observation(9999),
};

impl StoredChart for Stored {
    type Record = CusumResult;

    type Fields = Fields;

    fn of_case(case: Case) -> Option<Stored> {
        let [target, sigma, k, h] = case.values.map(|pattern| from_bits(pattern));
        match case.letter {
            b'n' => Some(Stored(Cusum::new(target, sigma))),
            b'p' => Some(Stored(Cusum::with_params(target, sigma, k, h))),
            _ => None,
        }
    }

    fn replay_other(progress: Progress, source: &mut Source, case: Case) -> io::Result<Progress> {
        let [target, sigma, k, h] = case.values.map(|pattern| from_bits(pattern));
        let chart = Cusum::with_params(target, sigma, k, h);
        match case.letter {
            b'u' => replay_run_length(progress, source, chart, Sum::Upper),
            b'l' => replay_run_length(progress, source, chart, Sum::Lower),
            _ => progress.stopped(),
        }
    }

    fn accepted() -> Stored {
        Stored(Cusum::new(0.0, 1.0))
    }

    fn refused() -> Stored {
        Stored(Cusum::with_params(0.0, 1.0, 0.5, 0.0))
    }

    fn unused() -> CusumResult {
        UNUSED
    }

    fn fields_of(record: CusumResult) -> Fields {
        Fields::from(record)
    }

    fn next_fields(source: &mut Source) -> io::Result<Option<Fields>> {
        Ok(next_block::<19>(source)?.map(Fields::from))
    }

    fn match_fields(
        progress: Progress,
        place: usize,
        expected: Fields,
        got: Fields,
    ) -> io::Result<Progress> {
        progress
            .matched(0, place, expected.s_upper, got.s_upper)?
            .matched(1, place, expected.s_lower, got.s_lower)?
            .matched(2, place, expected.mark, got.mark)
    }

    fn analyze(self, readings: &[f64], records: &mut [CusumResult]) -> Result<usize, Refusal> {
        self.0.analyze(readings, records)
    }

    fn signal_points(self, readings: &[f64], points: &mut [usize]) -> Result<usize, Refusal> {
        self.0.signal_points(readings, points)
    }
}
