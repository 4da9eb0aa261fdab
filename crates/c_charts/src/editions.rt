// An EWMA chart asked for in plain numbers: its edition is 1 or 2, and any other number is refusal 10,
// tried first.
ghost use Rattle.std.specs.Prelude.{◌≡◌};
ghost use Rattle.c_answers.specs.Told.{told_left};
ghost use Rattle.c_charts.specs.Editions.{edition_told, chart_told, asked_points};

use crate::EwmaSettings;
use c_answers::Counted;
use ewma::{Edition, Ewma};
use refusals::Refusal;

// The edition with the number `edition`, 1 or 2. Not a `TryFrom`: the number is C's, and `Edition` is of a
// crate that knows none of them.
#[tactic(auto, unfolding(crate::specs::Editions::is_edition, crate::specs::Editions::edition_of))]
fn edition_of(edition: u32) -> Option<Edition>
    ensures { result ≡ edition_told edition }
{
    match edition {
        1 => Some(Edition::First),
        2 => Some(Edition::Second),
        _ => None,
    }
}

// The chart that `asked` stands for, where its edition is one.
pub(crate) fn chart_of(asked: EwmaSettings) -> Option<Ewma>
    ensures { result ≡ chart_told asked }
{
    let edition = edition_of(asked.edition)?;
    Some(Ewma {
        target: asked.target,
        sigma: asked.sigma,
        lambda: asked.lambda,
        l_factor: asked.l_factor,
        edition,
    })
}

// Writes the index of each reading of `data` that signals to the front of `points`, which needs room for
// as many as there are readings, and leaves the others. Cost: one step for each reading.
pub fn ewma_signal_points(asked: EwmaSettings, data: &[f64], points: &mut [usize]) -> Counted
    ensures { (result, points.new) ≡ told_left (asked_points asked «data».now points.old) }
{
    let Some(chart) = chart_of(asked) else {
        return c_answers::answered(Err(Refusal::Form));
    };
    c_answers::answered(chart.signal_points(data, points))
}
