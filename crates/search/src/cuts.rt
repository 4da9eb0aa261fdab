// The three ways in which a search ends, with its cuts and its areas: no search at all, or one of the
// two and the walk back over its predecessors.
ghost use Rattle.std.specs.Prelude.{◌≡◌, ◌/◌, ◌≤◌, Ok, length, replicate};
ghost use Rattle.std.proofs.Math.Option.{some};
ghost use Rattle.floats.specs.Numbers.{+0};
ghost use Rattle.refusals.specs.Limits.{max_readings};
ghost use Rattle.search_answer.specs.Inner.Admitted.{Admitted};
ghost use Rattle.search_rules.specs.Limits.{functional_channels, slot_floats};
ghost use Rattle.search_answer.specs.Search.{pruned_cuts, functional_cuts};
ghost use Rattle.search_answer.specs.Outcome.{areas, found_outcome};
ghost use Rattle.search.specs.Inner.Held.{CutBack};

use areas::clear;
use backtrack::backtrack;
use costs::CostFunction;
use functional::partition_functional;
use inequality::partition_pruned;
use readings::Channels;
use refusals::Refusal;

// Sets `floats`, `indices` and `pool` to zero, where no search runs. Cost: one turn for each entry of an
// area.
#[tactic(auto, using(areas::proofs::ClearedLaws::cleared_whole))]
pub(crate) fn clear_all(floats: &mut [f64], indices: &mut [usize], pool: &mut [f64])
    ensures { (floats.new ≡ replicate (length floats.old) +0) × (indices.new ≡ replicate (length indices.old) 0) × (pool.new ≡ replicate (length pool.old) +0) }
{
    clear(floats, 0, floats.len());
    clear(indices, 0, indices.len());
    clear(pool, 0, pool.len());
}

// Writes the cuts of `n` readings to the front of `cuts`, by the predecessors in `indices[0..n + 1]`,
// which are set to 0 afterwards, and says how many cuts there are. Cost: one turn for each cut and for
// each predecessor.
fn cut_back(n: usize, cuts: &mut [usize], indices: &mut [usize]) -> usize
    requires { n ≤ max_readings }
    ensures { CutBack n cuts.old cuts.new indices.old indices.new result }
{
    let count = backtrack(indices, n, cuts);
    clear(indices, 0, n + 1);
    count
}

// The cuts by the functional search of `channels` in `run`, in pieces of `m` or more; refusal 9 where
// `pool` has too few slots.
pub(crate) fn by_functional(
    penalty: f64,
    run: &[f64],
    channels: Channels,
    m: usize,
    cuts: &mut [usize],
    floats: &mut [f64],
    indices: &mut [usize],
    pool: &mut [f64],
) -> Result<usize, Refusal>
    requires { Admitted (length run.now) channels.length channels.count m (length cuts.old) (length floats.old) (length indices.old) × (m ≤ channels.length) × (1 ≤ channels.count) × (channels.count ≤ functional_channels) }
    ensures { (result, areas cuts.new floats.new indices.new pool.new) ≡ found_outcome (functional_cuts (record { run = run.entry.now; n = channels.length; channels = channels.count; m = m; penalty = penalty }) (length pool.old / slot_floats)) (areas cuts.old floats.old indices.old pool.old) }
{
    let n = channels.length;
    if partition_functional(penalty, run, n, channels.count, m, floats, indices, pool) {
        return Ok(cut_back(n, cuts, indices));
    }
    Err(Refusal::Pool)
}

// The number of cuts by the inequality search of `channels` in `run`, in pieces of `m` or more. It needs
// no slots, and `pool` is set to zero.
pub(crate) fn by_inequality(
    cost: CostFunction,
    penalty: f64,
    run: &[f64],
    channels: Channels,
    m: usize,
    cuts: &mut [usize],
    floats: &mut [f64],
    indices: &mut [usize],
    pool: &mut [f64],
) -> usize
    requires { Admitted (length run.now) channels.length channels.count m (length cuts.old) (length floats.old) (length indices.old) × (m ≤ channels.length) }
    ensures { (Ok result, areas cuts.new floats.new indices.new pool.new) ≡ found_outcome (some (pruned_cuts cost run.now channels.length channels.count m penalty)) (areas cuts.old floats.old indices.old pool.old) }
{
    let n = channels.length;
    partition_pruned(cost, penalty, run, n, channels.count, m, floats, indices);
    clear(pool, 0, pool.len());
    cut_back(n, cuts, indices)
}
