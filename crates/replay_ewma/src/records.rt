// How an EWMA chart's cases and records are stored.
use charts::{Observation, Side};
use ewma::{Edition, Ewma, EwmaResult};
use floats::{from_bits, to_bits};
use refusals::Refusal;
use replay_common::{Case, Progress, Source, StoredChart, next_block, number};
use std::io;

// A chart whose answers are stored.
#[derive(Clone, Copy)]
pub(crate) struct Stored(Ewma);

// A record as numbers, its values by their bit patterns. The `mark` is the index, and 32 bits higher the
// number of the side.
#[derive(Clone, Copy)]
pub(crate) struct Fields {
    ewma: u64,
    ucl: u64,
    lcl: u64,
    mark: u64,
}

impl From<EwmaResult> for Fields {
    fn from(record: EwmaResult) -> Fields {
        Fields {
            ewma: to_bits(record.ewma),
            ucl: to_bits(record.ucl),
            lcl: to_bits(record.lcl),
            mark: u64::from(u8::from(record.side)) << 32 | record.index.0 as u64,
        }
    }
}

impl From<[u8; 27]> for Fields {
    fn from(bytes: [u8; 27]) -> Fields {
        Fields {
            ewma: number(&bytes[..8]),
            ucl: number(&bytes[8..16]),
            lcl: number(&bytes[16..24]),
            mark: u64::from(bytes[24]) << 32 | number(&bytes[25..]),
        }
    }
}

// What lent records are before a call: the index is none of a reading.
pub(crate) const UNUSED: EwmaResult = EwmaResult {
    ewma: -7.0,
    ucl: -8.0,
    lcl: -9.0,
    side: Side::Both,
    index: Observation(9999),
};

impl StoredChart for Stored {
    type Record = EwmaResult;

    type Fields = Fields;

    // A capital letter is the second edition.
    fn of_case(case: Case) -> Option<Stored> {
        let [target, sigma, lambda, l_factor] = case.values.map(|pattern| from_bits(pattern));
        let edition = match case.letter {
            b'N' | b'P' => Edition::Second,
            _ => Edition::First,
        };
        match case.letter {
            b'n' | b'N' => Some(Stored(Ewma::new(target, sigma, edition))),
            b'p' | b'P' => {
                let chart = Ewma::with_params(target, sigma, lambda, l_factor, edition);
                Some(Stored(chart))
            }
            _ => None,
        }
    }

    fn replay_other(progress: Progress, _source: &mut Source, _case: Case) -> io::Result<Progress> {
        progress.stopped()
    }

    fn accepted() -> Stored {
        Stored(Ewma::new(0.0, 1.0, Edition::First))
    }

    fn refused() -> Stored {
        Stored(Ewma::with_params(0.0, 1.0, 0.2, 0.0, Edition::Second))
    }

    fn unused() -> EwmaResult {
        UNUSED
    }

    fn fields_of(record: EwmaResult) -> Fields {
        Fields::from(record)
    }

    fn next_fields(source: &mut Source) -> io::Result<Option<Fields>> {
        Ok(next_block::<27>(source)?.map(Fields::from))
    }

    fn match_fields(
        progress: Progress,
        place: usize,
        expected: Fields,
        got: Fields,
    ) -> io::Result<Progress> {
        progress
            .matched(0, place, expected.ewma, got.ewma)?
            .matched(1, place, expected.ucl, got.ucl)?
            .matched(2, place, expected.lcl, got.lcl)?
            .matched(3, place, expected.mark, got.mark)
    }

    fn analyze(self, readings: &[f64], records: &mut [EwmaResult]) -> Result<usize, Refusal> {
        self.0.analyze(readings, records)
    }

    fn signal_points(self, readings: &[f64], points: &mut [usize]) -> Result<usize, Refusal> {
        self.0.signal_points(readings, points)
    }
}
