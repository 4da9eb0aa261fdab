// The search from its settings to its cuts, once nothing refuses before 9.
ghost use Rattle.std.specs.Prelude.{◌≡◌, ◌/◌, ◌≤◌, length};
ghost use Rattle.search_answer.specs.Inner.Admitted.{Admitted};
ghost use Rattle.search_answer.specs.Search.{penalty_value, takes_functional, cuts_found};
ghost use Rattle.search_answer.specs.Outcome.{areas, found_outcome, detected};
ghost use Rattle.search_rules.specs.Limits.{slot_floats};
ghost use Rattle.search_rules.specs.Room.{floats_for};
ghost use Rattle.refusals.specs.Limits.{max_channels, max_readings};
ghost use Rattle.search.specs.Inner.Held.{asks_noise};

use crate::cuts::{by_functional, by_inequality, clear_all};
use costs::{CostFunction, Penalty, resolve_penalty};
use functional::FUNCTIONAL_MAX_CHANNELS;
use noise::noise_sum;
use readings::Channels;
use refusals::Refusal;
use search_answer::admitted;

// Whether `penalty` is worked out from the noise, for this `cost`.
#[tactic(auto, unfolding(crate::specs::Inner::Held::asks_noise))]
fn asks_noise(penalty: Penalty, cost: CostFunction) -> bool
    ensures { result ≡ asks_noise penalty cost }
{
    matches!((penalty, cost), (Penalty::Bic, CostFunction::L2))
}

// The value of `penalty` for `channels` in `run`. The noise is worked out in the last run of the work
// floats that a search asks for.
#[tactic(auto, using(crate::proofs::FindingLaws::noise_place_small))]
fn penalty_value(
    cost: CostFunction,
    penalty: Penalty,
    run: &[f64],
    channels: Channels,
    floats: &mut [f64],
) -> f64
    requires { (channels.length ≤ max_readings) × (channels.count ≤ max_channels) × (floats_for channels.length channels.count ≤ length floats.old) }
    ensures { (result ≡ penalty_value cost penalty run.now channels.length channels.count) × (length floats.new ≡ length floats.old) }
{
    let n = channels.length;
    let k = channels.count;
    if asks_noise(penalty, cost) {
        let noise = noise_sum(run, n, k, floats, (2 * k + 1) * (n + 1));
        return resolve_penalty(penalty, cost, n, k, noise);
    }
    resolve_penalty(penalty, cost, n, k, 0.0)
}

// Whether the functional search is taken: by L2 on one or two channels. All else takes the inequality
// search.
#[tactic(auto, unfolding(search_answer::specs::Search::takes_functional))]
fn takes_functional(cost: CostFunction, channels: usize) -> bool
    ensures { result ≡ takes_functional cost channels }
{
    match cost {
        CostFunction::L2 => channels <= FUNCTIONAL_MAX_CHANNELS,
        CostFunction::Normal => false,
    }
}

// The number of cuts, or 9, of a search of `channels` in `run`, in pieces of `m` or more, once none of
// refusals 1 to 8 is given. The lent areas stay four parameters: in a struct every clause would say of
// each field that it is the same reference still, beside what it holds.
fn find(
    cost: CostFunction,
    penalty: Penalty,
    m: usize,
    run: &[f64],
    channels: Channels,
    cuts: &mut [usize],
    floats: &mut [f64],
    indices: &mut [usize],
    pool: &mut [f64],
) -> Result<usize, Refusal>
    requires { Admitted (length run.now) channels.length channels.count m (length cuts.old) (length floats.old) (length indices.old) }
    ensures { (result, areas cuts.new floats.new indices.new pool.new) ≡ found_outcome (cuts_found cost penalty m run.now channels.length channels.count (length pool.old / slot_floats)) (areas cuts.old floats.old indices.old pool.old) }
{
    if channels.length / 2 < m {
        clear_all(floats, indices, pool);
        return Ok(0);
    }
    let value = penalty_value(cost, penalty, run, channels, floats);
    if value <= 0.0 {
        clear_all(floats, indices, pool);
        return Ok(0);
    }
    if takes_functional(cost, channels.count) {
        return by_functional(value, run, channels, m, cuts, floats, indices, pool);
    }
    Ok(by_inequality(cost, value, run, channels, m, cuts, floats, indices, pool))
}

// The number of cuts, in pieces of `m` readings or more, of the channels that stand one after the other
// in `run` and have the lengths `lengths`; the cuts are lowest first, in the front of `cuts`. Where the
// search is `strict`, a reading that is not finite is refused. Afterwards the work areas `floats`,
// `indices` and `pool` are zero; a refusal other than 9 changes nothing. Cost: that of the search which
// runs, and one turn for each lent entry.
pub fn find_cuts(
    cost: CostFunction,
    penalty: Penalty,
    m: usize,
    strict: bool,
    run: &[f64],
    lengths: &[usize],
    cuts: &mut [usize],
    floats: &mut [f64],
    indices: &mut [usize],
    pool: &mut [f64],
) -> Result<usize, Refusal>
    ensures { (result, areas cuts.new floats.new indices.new pool.new) ≡ detected strict cost penalty m run.now lengths.now (areas cuts.old floats.old indices.old pool.old) }
{
    let channels = admitted(
        penalty,
        m,
        strict,
        run,
        lengths,
        cuts.len(),
        floats.len(),
        indices.len(),
    )?;
    find(cost, penalty, m, run, channels, cuts, floats, indices, pool)
}
