// A search that is asked for in plain numbers (rule 8.1), for programs in other languages.
//
// `search` asks nothing of its caller. `specs/Asked` says which numbers stand for which settings;
// others are refusal 10, which is tried first and changes no area. All else is the search of crate
// `search`, told in numbers by crate `c_answers`.
#![tactic(auto)]

ghost use Rattle.std.specs.Prelude.{◌≡◌, cond, ltb, Some, None};
ghost use Rattle.refusals.specs.Said.{said};
ghost use Rattle.search_answer.specs.Outcome.{areas};
ghost use Rattle.c_answers.specs.Told.{told_of};
ghost use Rattle.c_search.specs.Asked.{known_numbers, cost_of, penalty_of, told_search};

use c_answers::Told;
use costs::{CostFunction, Penalty};
use refusals::Refusal;
use search::find_cuts;

// The cost function that the number `cost` stands for: 0 is L2, 1 Normal, and no other number is one.
#[tactic(auto, unfolding(crate::specs::Asked::cost_of))]
fn cost_of(cost: u32) -> Option<CostFunction>
    ensures { result ≡ cond (ltb cost 2) (Some (cost_of cost)) None }
{
    match cost {
        0 => Some(CostFunction::L2),
        1 => Some(CostFunction::Normal),
        _ => None,
    }
}

// The penalty that the number `penalty_kind` stands for: 0 is BIC, 1 the custom value `penalty`, and no
// other number is one.
#[tactic(auto, unfolding(crate::specs::Asked::penalty_of))]
fn penalty_of(penalty_kind: u32, penalty: f64) -> Option<Penalty>
    ensures { result ≡ cond (ltb penalty_kind 2) (Some (penalty_of penalty_kind penalty)) None }
{
    match penalty_kind {
        0 => Some(Penalty::Bic),
        1 => Some(Penalty::Custom(penalty)),
        _ => None,
    }
}

// The settings that these numbers stand for, and nothing where one of them stands for none.
#[tactic(auto, unfolding(crate::specs::Asked::known_numbers))]
fn settings(cost: u32, penalty_kind: u32, penalty: f64) -> Option<(CostFunction, Penalty)>
    ensures { result ≡ cond (known_numbers cost penalty_kind) (Some (cost_of cost, penalty_of penalty_kind penalty)) None }
{
    Some((cost_of(cost)?, penalty_of(penalty_kind, penalty)?))
}

// What is told of `answer`: the number of cuts, or the refusal with its channel and index.
#[tactic(auto, unfolding(c_answers::specs::Told::told_of))]
fn told_cuts(answer: Result<usize, Refusal>) -> Told
    ensures { result ≡ told_of (said answer) }
{
    match answer {
        Ok(count) => Told {
            number: 0,
            count,
            channel: 0,
            index: 0,
        },
        Err(refusal) => c_answers::refused(refusal),
    }
}

// The search of `find_cuts` over `readings` in channels of these `lengths`, with the settings that
// `cost`, `penalty_kind` and `penalty` stand for, and what is told of its answer.
pub fn search(
    strict: bool,
    cost: u32,
    penalty_kind: u32,
    penalty: f64,
    min_segment_len: usize,
    readings: &[f64],
    lengths: &[usize],
    cuts: &mut [usize],
    floats: &mut [f64],
    indices: &mut [usize],
    pool: &mut [f64],
) -> Told
    ensures { (result, areas cuts.new floats.new indices.new pool.new) ≡ told_search strict cost penalty_kind penalty min_segment_len readings.now lengths.now (areas cuts.old floats.old indices.old pool.old) }
{
    match settings(cost, penalty_kind, penalty) {
        Some((cost, penalty)) => told_cuts(find_cuts(
            cost,
            penalty,
            min_segment_len,
            strict,
            readings,
            lengths,
            cuts,
            floats,
            indices,
            pool,
        )),
        None => c_answers::refused(Refusal::Form),
    }
}
