// The steps of the search.
ghost use Rattle.std.specs.Prelude.{◌≡◌, true, ◌+◌, ◌≤◌, ◌<◌, length, get_or};
ghost use Rattle.std.specs.Float.{nan};
ghost use Rattle.floats.specs.Numbers.{◌+ᶠ◌};
ghost use Rattle.search_rules.specs.Minimum.{scan_to};
ghost use Rattle.search_rules.specs.Functional.{price};
ghost use Rattle.functional.specs.Inner.Held.{Sound, task, taus, AllBelow, Holds, Stepped, Searched};

use crate::birth::birth;
use crate::{BALLS, Balls, Entry, Plan, Slot};
use costs::{CostFunction, cost_of};
use search_rules::{Best, better, none_yet};

impl Plan<'_> {
    // The total by which `tau` is the last cut before `t`: F(tau), the cost from `tau` to `t`, and the
    // penalty. F stands in `f`.
    fn total_of(self, f: &[f64], tau: usize, t: usize) -> f64
        requires { Sound self × (tau < t) × (t ≤ self.n) × (length f.now ≡ self.n + 1) }
        ensures { result ≡ get_or f.now tau nan +ᶠ price (task self.entry) tau t +ᶠ self.entry.penalty }
    {
        let cost = cost_of(CostFunction::L2, self.sums, self.n, self.channels, tau, t);
        f[tau] + cost + self.penalty
    }
}

// The best of the living candidates at `t`. Cost: one turn for each.
fn best_of(plan: Plan, f: &[f64], entries: &[Entry], t: usize) -> Best
    requires { Sound plan × (length f.now ≡ plan.n + 1) × (t ≤ plan.n) × AllBelow t entries.now (length entries.now) }
    ensures { result ≡ scan_to (λ tau. true) (λ tau. get_or f.now tau nan +ᶠ price (task plan.entry) tau t +ᶠ plan.entry.penalty) (taus entries.now (length entries.now)) (length entries.now) }
{
    let mut best = none_yet();
    for [tau, _] in entries {
        best = better(best, plan.total_of(f, *tau, t), *tau);
    }
    best
}

// The step at `t`, with `count` living candidates; says how many live after it. These are at the front of
// the entries and the slots, which stay whole here, since a birth stores behind them.
fn step(
    plan: Plan,
    f: &mut [f64],
    last: &mut [usize],
    entries: &mut [Entry],
    slots: &mut [Slot],
    born: &mut Balls,
    count: usize,
    t: usize,
) -> usize
    requires { Holds plan f.old last.old entries.old slots.old count t × (t ≤ plan.n) }
    ensures { Stepped plan.entry f.new last.new entries.new slots.new t result }
{
    let best = best_of(plan, f, &entries[..count], t);
    f[t] = best.cost;
    last[t] = best.tau;
    let b = t + 1 - plan.m;
    if b < plan.m {
        return count;
    }
    birth(plan, f, entries, slots, born, count, b)
}

// Every step from t = m to n, until there are more candidates than slots; says whether there never were.
// Cost: one step for each t.
pub(crate) fn search(
    plan: Plan,
    f: &mut [f64],
    last: &mut [usize],
    entries: &mut [Entry],
    slots: &mut [Slot],
) -> bool
    requires { Holds plan f.old last.old entries.old slots.old 1 plan.m }
    ensures { Searched plan.entry last.new (length slots.old) result }
{
    let mut born = [0.0; BALLS];
    let mut count = 1;
    for t in plan.m..plan.n + 1 {
        count = step(plan, f, last, entries, slots, &mut born, count, t);
        if slots.len() < count {
            return false;
        }
    }
    true
}
