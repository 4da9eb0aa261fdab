// The steps of the search, each of which finds F(t) and the predecessor of t.
ghost use Rattle.std.specs.Prelude.{◌≡◌, ◌+◌, ◌≤◌, ◌++◌, length};
ghost use Rattle.inequality.specs.Inner.Held.{Holds};

use crate::Plan;
use crate::keeping::{join_runs, retain};
use crate::lowest::lowest;
use crate::weights::{old_count, weigh};

// The step at `t` over `count` candidates: writes F(t) and its predecessor, and the candidates that live
// after it, to `parts`, `predecessors` and `candidates`, as `plan` has them, and returns how many live.
// `run` goes along for the contract alone.
fn step(
    run: &[f64],
    parts: &mut [f64],
    weights: &mut [f64],
    predecessors: &mut [usize],
    candidates: &mut [usize],
    plan: Plan,
    count: usize,
    t: usize,
) -> usize
    requires { Holds run.now plan (parts.old ++ weights.old) (predecessors.old ++ candidates.old) count t × (length parts.old ≡ plan.p) × (length predecessors.old ≡ plan.c) × (t ≤ plan.n) }
    ensures { Holds run.now plan (parts.new ++ weights.new) (predecessors.new ++ candidates.new) result (t + 1) }
{
    let old = old_count(&candidates[..count], plan.m, t);
    weigh(parts, weights, &candidates[..old], plan, count, t);
    let best = lowest(&weights[..old], &candidates[..old], plan.penalty);
    predecessors[t] = best.tau;
    let bound = best.cost + plan.penalty;
    let kept = retain(parts, weights, candidates, plan, count, bound);
    join_runs(parts, plan, kept, t);
    parts[plan.f + kept] = best.cost;
    candidates[kept] = t;
    kept + 1
}

// Every step of `plan` from t = m to n, over the split areas: writes the predecessors to `predecessors`,
// and returns how many candidates live at the end. `run` goes along for the contract alone. Cost: one
// step for each t, so n²/2 costs over the channels where no candidate goes.
pub(crate) fn search(
    run: &[f64],
    parts: &mut [f64],
    weights: &mut [f64],
    predecessors: &mut [usize],
    candidates: &mut [usize],
    plan: Plan,
) -> usize
    requires { Holds run.now plan (parts.old ++ weights.old) (predecessors.old ++ candidates.old) 1 plan.m × (length parts.old ≡ plan.p) × (length predecessors.old ≡ plan.c) × (plan.m ≤ plan.n) }
    ensures { Holds run.now plan (parts.new ++ weights.new) (predecessors.new ++ candidates.new) result (plan.n + 1) }
{
    let mut count = 1;
    for t in plan.m..plan.n + 1 {
        count = step(
            run,
            parts,
            weights,
            predecessors,
            candidates,
            plan,
            count,
            t,
        );
    }
    count
}
