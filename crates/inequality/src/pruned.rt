// The search as a whole, from the lent areas as they come to the predecessors.
ghost use Rattle.std.specs.Prelude.{◌+◌, ◌*◌, ◌≤◌, length};
ghost use Rattle.inequality.specs.Inner.Held.{Room, Holds};
ghost use Rattle.inequality.specs.Pruned.{Pruned};

use crate::Plan;
use crate::steps::search;
use areas::clear;
use costs::CostFunction;
use search_rules::search_fits;
use sums::channel_sums;

// Sets the areas as `plan` wants them before the first step: the sums of `run` and F(0) in `floats`, and
// no predecessor and the candidate 0 in `indices`.
fn begin(run: &[f64], floats: &mut [f64], indices: &mut [usize], plan: Plan)
    requires { Room plan (length floats.old) (length indices.old) × (plan.channels * plan.n ≤ length run.now) }
    ensures { Holds run.now plan floats.new indices.new 1 plan.m }
{
    let f = plan.f;
    let c = plan.c;
    channel_sums(run, plan.n, plan.channels, floats);
    floats[f] = -plan.penalty;
    clear(indices, 0, plan.n + 1);
    indices[c] = 0;
}

// Writes the predecessors of 0 to `n` by the inequality search to the front of `indices`: for `channels`
// channels of `run`, of `n` readings each, by `cost` and `penalty`, with pieces of at least `m`
// readings. All of `floats` and the rest of `indices` are zero afterwards. Where the search does not
// fit, both areas stay as they were.
pub fn partition_pruned(
    cost: CostFunction,
    penalty: f64,
    run: &[f64],
    n: usize,
    channels: usize,
    m: usize,
    floats: &mut [f64],
    indices: &mut [usize],
)
    ensures { Pruned cost penalty run.now n channels m floats.old floats.new indices.old indices.new }
{
    if search_fits(run.len(), n, channels, m, floats.len(), indices.len()) {
        let w = n + 1;
        let f = 2 * channels * w;
        let plan = Plan {
            cost,
            penalty,
            n,
            m,
            channels,
            f,
            p: f + w,
            c: w,
        };
        begin(run, floats, indices, plan);
        let (parts, weights) = floats.split_at_mut(plan.p);
        let (predecessors, candidates) = indices.split_at_mut(plan.c);
        search(run, parts, weights, predecessors, candidates, plan);
        clear(floats, 0, floats.len());
        clear(indices, w, indices.len());
    }
}
