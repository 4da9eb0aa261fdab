// The records of a chart as arrays, one for each field (rule 8.3), for programs in other languages.
//
// No public function asks anything of its caller. `specs/CusumColumns` and `specs/EwmaColumns` say what
// is told and what every lent array holds afterwards: at its front that field of the records that the
// chart's `analyze` writes, and behind them what it held. A refusal changes nothing; 7 is told where
// any array is too short. An EWMA chart is asked for by numbers, its edition among them, of which
// `specs/Editions` says what they stand for (rule 8.1).
#![tactic(auto)]

mod columns;
mod cusum_columns;
mod editions;
mod ewma_columns;

ghost use Rattle.std.specs.Prelude.{◌≡◌};
ghost use Rattle.c_charts.specs.Columns.{shorter, shortest};

pub use cusum_columns::cusum_analyze;
pub use editions::ewma_signal_points;
pub use ewma_columns::ewma_analyze;

// The settings of an EWMA chart, with its `edition` as the number that the C interface gives.
#[derive(Clone, Copy)]
pub struct EwmaSettings {
    pub target: f64,
    pub sigma: f64,
    pub lambda: f64,
    pub l_factor: f64,
    pub edition: u32,
}

#[tactic(auto, unfolding(crate::specs::Columns::shorter))]
pub(crate) fn shorter(a: usize, b: usize) -> usize
    ensures { result ≡ shorter a b }
{
    a.min(b)
}

#[tactic(auto, unfolding(crate::specs::Columns::shortest))]
pub(crate) fn shortest(a: usize, b: usize, c: usize, d: usize) -> usize
    ensures { result ≡ shortest a b c d }
{
    shorter(shorter(a, b), shorter(c, d))
}
