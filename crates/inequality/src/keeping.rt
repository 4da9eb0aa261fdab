// Which candidates stay, and how what the floats hold of them moves to the front.
ghost use Rattle.std.specs.Prelude.{◌≡◌, ◌&&◌, ◌+◌, ◌*◌, ◌≤◌, ◌<◌, ◌++◌, length, get_or};
ghost use Rattle.std.specs.Float.{nan};
ghost use Rattle.floats.specs.Numbers.{◌<ᶠ◌};
ghost use Rattle.inequality.specs.Inner.Held.{Room};
ghost use Rattle.inequality.specs.Inner.Staying.{Staying, Leaving, Retained, RetainedRuns, Joined};

use crate::Plan;

// Whether the weight `weights[place]` is below `bound`.
fn part_below(weights: &[f64], place: usize, bound: f64) -> bool
    requires { place < length weights.now }
    ensures { result ≡ (get_or weights.now place nan <ᶠ bound) }
{
    weights[place] < bound
}

// Whether the four weights `weights[place..place + 4]` are all below `bound`, with no branch.
fn all_below(weights: &[f64], place: usize, bound: f64) -> bool
    requires { place + 4 ≤ length weights.now }
    ensures { result ≡ (((get_or weights.now place nan <ᶠ bound && get_or weights.now (place + 1) nan <ᶠ bound) && get_or weights.now (place + 2) nan <ᶠ bound) && get_or weights.now (place + 3) nan <ᶠ bound) }
{
    part_below(weights, place, bound)
        & part_below(weights, place + 1, bound)
        & part_below(weights, place + 2, bound)
        & part_below(weights, place + 3, bound)
}

// How many of the first candidates stay, counted in fours: a candidate stays if its weight, in
// `weights`, is below `bound`. Cost: one turn for every four.
fn fours_staying(weights: &[f64], bound: f64) -> usize
    ensures { (result ≤ length weights.now) × Staying bound weights.now 0 result }
{
    let count = weights.len();
    let mut j = 0;
    // Not a for: a turn takes four, and where the loop ends the rest begins.
    while j + 4 <= count {
        if all_below(weights, j, bound) {
            j += 4;
        } else {
            return j;
        }
    }
    j
}

// How many of the first candidates stay before one goes, or all: a candidate stays if its weight, in
// `weights`, is below `bound`. Cost: one turn for every four that stay, and up to four more.
fn staying(weights: &[f64], bound: f64) -> usize
    ensures { (result ≤ length weights.now) × Staying bound weights.now 0 result }
{
    for j in fours_staying(weights, bound)..weights.len() {
        if !part_below(weights, j, bound) {
            return j;
        }
    }
    weights.len()
}

// The first candidate that stays, of those from `from` on, or their count if none does: a candidate
// stays if its weight, in `weights`, is below `bound`. After a change those before it go together, and
// need not be looked at part by part. Cost: one turn for each that goes.
fn leaving(weights: &[f64], from: usize, bound: f64) -> usize
    requires { from ≤ length weights.now }
    ensures { (from ≤ result) × (result ≤ length weights.now) × Leaving bound weights.now 0 from result }
{
    for j in from..weights.len() {
        if part_below(weights, j, bound) {
            return j;
        }
    }
    weights.len()
}

// Moves the values of the candidates that stay to the front of `values`, in order, and returns how many
// they are. Of the candidates the first `from` stay, those up to `next` go, and of the others those stay
// whose weight, in `weights`, is below `bound`. A value is stored before it is known whether it stays,
// which saves a branch. Cost: one turn for each from `next` on.
fn retain_run<T: Copy>(
    values: &mut [T],
    weights: &[f64],
    from: usize,
    next: usize,
    bound: f64,
) -> usize
    requires { (from ≤ next) × (next ≤ length values.old) × (length weights.now ≡ length values.old) × Staying bound weights.now 0 from × Leaving bound weights.now 0 from next }
    ensures { (d : T) → Retained bound weights.now 0 d values.old values.new 0 (length values.old) (length values.old) result }
{
    let mut kept = from;
    for i in next..values.len() {
        values[kept] = values[i];
        if weights[i] < bound {
            kept += 1;
        }
    }
    kept
}

// The same in each of `parts`, those that hold sums and F's, as `plan` has them, for the first `count` of
// `weights`. Cost: one turn for each part.
fn retain_runs(
    parts: &mut [f64],
    weights: &[f64],
    plan: Plan,
    from: usize,
    next: usize,
    count: usize,
    bound: f64,
)
    requires { Room plan (length parts.old + length weights.now) (plan.c + (plan.n + 1)) × (length parts.old ≡ plan.p) × (from ≤ next) × (next ≤ count) × (count ≤ plan.n) × Staying bound weights.now 0 from × Leaving bound weights.now 0 from next }
    ensures { RetainedRuns bound plan (parts.old ++ weights.now) (parts.new ++ weights.now) count (2 * plan.channels + 1) }
{
    for run in 0..2 * plan.channels + 1 {
        let base = run * (plan.n + 1);
        retain_run(
            &mut parts[base..base + count],
            &weights[..count],
            from,
            next,
            bound,
        );
    }
}

// Moves those of the first `count` of `candidates` whose weight, in `weights`, is below `bound` to the
// front, in order, and with them what `parts` hold of them, as `plan` has them; returns how many they are.
pub(crate) fn retain(
    parts: &mut [f64],
    weights: &[f64],
    candidates: &mut [usize],
    plan: Plan,
    count: usize,
    bound: f64,
) -> usize
    requires { Room plan (length parts.old + length weights.now) (plan.c + length candidates.old) × (length parts.old ≡ plan.p) × (count ≤ plan.n) }
    ensures { RetainedRuns bound plan (parts.old ++ weights.now) (parts.new ++ weights.now) count (2 * plan.channels + 1) × Retained bound weights.now 0 0 candidates.old candidates.new 0 count count result }
{
    let from = staying(&weights[..count], bound);
    if from < count {
        let next = leaving(&weights[..count], from, bound);
        retain_runs(parts, weights, plan, from, next, count, bound);
        return retain_run(
            &mut candidates[..count],
            &weights[..count],
            from,
            next,
            bound,
        );
    }
    count
}

// Copies the sums at `t` behind those of the `kept` candidates that stayed, in each of `parts` that holds
// sums, as `plan` has them. Cost: one turn for each part.
pub(crate) fn join_runs(parts: &mut [f64], plan: Plan, kept: usize, t: usize)
    requires { Room plan (plan.p + (plan.n + 1)) (plan.c + (plan.n + 1)) × (length parts.old ≡ plan.p) × (kept ≤ t) × (t ≤ plan.n) }
    ensures { Joined plan parts.old parts.new kept t (2 * plan.channels) }
{
    for run in 0..2 * plan.channels {
        let base = run * (plan.n + 1);
        parts[base + kept] = parts[base + t];
    }
}
