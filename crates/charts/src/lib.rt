// What the charts share: the index of an observation and the place on a chart, the sides on which a
// record signals, the order of a chart's refusals, and both calls of any chart.
//
// No function asks anything of its caller. `specs/Sides` says what a side is made of and
// which sides are a signal. A chart's refusals are those of its settings, 15 to 18, and then 6 and 7, tried
// in that order: `specs/Settings` and `specs/Answers`; what `analyze` and `signal_points` of any chart come
// to is `specs/Outcomes`.
//
// `specs/Runs` says what a run over a series is, whatever its settings, states and records are. A chart says
// by the trait `Chart` which states it goes through and what each shows. `proofs/Loops` has what is known
// after each reading in the loops of both calls. What the loop of `analyze` leaves is the records of the run
// at the front of the slice, with what the slice held behind them (`proofs/Runs`), in one list or in an array
// for each field (`proofs/Columns`).
#![tactic(auto)]

mod chart;

ghost use Rattle.std.specs.Prelude.{◌≡◌};
ghost use Rattle.charts.specs.Settings.{setting_tests, tested_as};
ghost use Rattle.charts.specs.Answers.{admitted_after};
ghost use Rattle.charts.specs.Notes.{noted};
ghost use Rattle.charts.specs.Sides.{side_of, signals, side_number};

pub use chart::{Chart, analyze, judge, signal_points};
use refusals::{MAX_READINGS, Refusal};

// The index of an observation in its series, from 0.
#[derive(Clone, Copy, PartialEq, Eq, Debug)]
pub struct Observation(pub usize);

// The place of an observation on its chart, from 1; 0 where nothing was measured yet and the chart counts
// finite readings only.
#[derive(Clone, Copy, PartialEq, Eq, Debug)]
pub struct Place(pub usize);

// On which side of a chart a reading signals.
#[derive(Clone, Copy, PartialEq, Eq, Debug)]
pub enum Side {
    None,
    Above,
    Below,
    Both,
}

// Which of a chart's two sums is asked for: that of what lies above the target, or that of what lies
// below it.
#[derive(Clone, Copy, PartialEq, Eq, Debug)]
pub enum Sum {
    Upper,
    Lower,
}

// Whether each setting of a chart is in range: its `target`, its `sigma`, its `weight` (k or lambda) and
// its `bound` (h or L).
#[derive(Clone, Copy, PartialEq, Eq, Debug)]
pub struct InRange {
    pub target: bool,
    pub sigma: bool,
    pub weight: bool,
    pub bound: bool,
}

// The side of a reading that signals `above` and `below`, or on one of them, or not at all.
#[tactic(auto, unfolding(crate::specs::Sides::side_of))]
pub fn side_of(above: bool, below: bool) -> Side
    ensures { result ≡ side_of above below }
{
    match (above, below) {
        (true, true) => Side::Both,
        (true, false) => Side::Above,
        (false, true) => Side::Below,
        (false, false) => Side::None,
    }
}

// Whether `side` is a signal.
pub fn signals(side: Side) -> bool
    ensures { result ≡ signals side }
{
    !matches!(side, Side::None)
}

// The number of a side: 0 none, 1 above, 2 below, 3 both.
impl From<Side> for u8 {
    ghost from_gives = { λ side number. number ≡ side_number side };

    fn from(side: Side) -> u8 {
        match side {
            Side::None => 0,
            Side::Above => 1,
            Side::Below => 2,
            Side::Both => 3,
        }
    }
}

// Sets `points[count]` to `index` where the reading signals, as `signal` says, and there is room. The
// answer is how many indices stand in front then.
pub fn note(signal: bool, index: usize, count: usize, points: &mut [usize]) -> usize
    ensures { (result, points.new) ≡ noted signal index count points.old }
{
    if signal && count < points.len() {
        points[count] = index;
        return count + 1;
    }
    count
}

// The settings of a chart tested in their order, where `settings` says whether each is in range.
#[tactic(auto, unfolding(refusals::specs::Tried::tried))]
pub fn tested(settings: InRange) -> Result<(), Refusal>
    ensures { result ≡ tested_as (setting_tests settings) }
{
    // The usual case first; docs/DECISIONS.md says what was measured of it.
    if settings.target & settings.sigma & settings.weight & settings.bound {
        return Ok(());
    }
    if !settings.target {
        return Err(Refusal::Target);
    }
    if !settings.sigma {
        return Err(Refusal::Sigma);
    }
    if !settings.weight {
        return Err(Refusal::Weight);
    }
    Err(Refusal::Bound)
}

// What `analyze` answers for `readings` readings with room for `room` results, after `settings`.
#[tactic(auto, unfolding(refusals::specs::Tried::tried))]
pub fn admitted(
    settings: Result<(), Refusal>,
    readings: usize,
    room: usize,
) -> Result<usize, Refusal>
    ensures { result ≡ admitted_after settings readings room }
{
    settings?;
    if MAX_READINGS < readings {
        Err(Refusal::TooLong)
    } else if room < readings {
        Err(Refusal::Room)
    } else {
        Ok(readings)
    }
}
