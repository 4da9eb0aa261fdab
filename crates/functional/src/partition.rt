// The search from the lent areas as they come to the predecessors.
ghost use Rattle.std.specs.Prelude.{◌≡◌, true, cond, ◌+◌, ◌*◌, ◌/◌, ◌≤◌, length};
ghost use Rattle.search_rules.specs.Limits.{functional_channels, slot_floats};
ghost use Rattle.search_rules.specs.Room.{search_fits};
ghost use Rattle.search_rules.specs.Partitioned.{fits_task, Partitioned};
ghost use Rattle.functional.specs.Inner.Held.{Sound, Holds, Searched, Ran};

use crate::channels::sum_channels;
use crate::slots::put_box;
use crate::steps::search;
use crate::{Entry, FUNCTIONAL_MAX_CHANNELS, Plan, SLOT_FLOATS, Slot};
use areas::clear;
use search_rules::search_fits;

// The areas as the first step wants them: F(0), no predecessor, and the candidate 0 with the whole range
// and no balls.
fn begin(plan: Plan, f: &mut [f64], last: &mut [usize], entries: &mut [Entry], slots: &mut [Slot])
    requires { Sound plan × (length f.old ≡ plan.n + 1) × (length last.old ≡ plan.n + 1) × (plan.n + 1 ≤ length entries.old) × (1 ≤ length slots.old) }
    ensures { Holds plan.entry f.new last.new entries.new slots.new 1 plan.entry.m }
{
    f.fill(0.0);
    f[0] = -plan.penalty;
    last.fill(0);
    entries[0] = [0, 0];
    put_box(&mut slots[0], plan.range);
}

// The search in its areas: F, the predecessors, the slots, and `living`, where the entries of the living
// candidates stand. Says whether the slots sufficed.
fn search_in(
    plan: Plan,
    f: &mut [f64],
    last: &mut [usize],
    living: &mut [usize],
    slots: &mut [Slot],
) -> bool
    requires { Sound plan × (length f.old ≡ plan.n + 1) × (length last.old ≡ plan.n + 1) × (2 * (plan.n + 1) ≤ length living.old) × (1 ≤ length slots.old) }
    ensures { Searched plan.entry last.new (length slots.old) result }
{
    let (entries, _) = living.as_chunks_mut::<2>();
    begin(plan, f, last, entries, slots);
    search(plan, f, last, entries, slots)
}

// The whole search, before anything is cleared; says whether the slots sufficed. The floats take the
// sums and F, the indices the predecessors and the entries of the living candidates, the pool their
// slots.
fn search_all(
    penalty: f64,
    run: &[f64],
    n: usize,
    channels: usize,
    m: usize,
    floats: &mut [f64],
    indices: &mut [usize],
    pool: &mut [f64],
) -> bool
    requires { (1 ≤ channels) × (channels ≤ functional_channels) × (search_fits (length run.now) n channels m (length floats.old) (length indices.old) ≡ true) }
    ensures { Ran (record { run = run.entry.now; n = n; channels = channels; m = m; penalty = penalty }) (length pool.old / slot_floats) indices.new result }
{
    let (slots, _) = pool.as_chunks_mut::<SLOT_FLOATS>();
    if slots.is_empty() {
        return false;
    }
    let (sums, rest) = floats.split_at_mut(channels * (2 * (n + 1)));
    let (last, living) = indices.split_at_mut(n + 1);
    let f = &mut rest[..n + 1];
    let range = sum_channels(run, n, channels, sums);
    let plan = Plan {
        run,
        sums,
        penalty,
        n,
        m,
        channels,
        range,
    };
    search_in(plan, f, last, living, slots)
}

// The index at which the clearing of the indices begins: `w`, behind the predecessors, where the search
// is `done`, and otherwise 0.
fn kept_front(done: bool, w: usize) -> usize
    ensures { result ≡ cond done w 0 }
{
    if done { w } else { 0 }
}

// Whether the search is one of one or two channels that fits: a run of `run` readings, areas of `floats`
// floats and `indices` indices.
#[tactic(auto, unfolding(search_rules::specs::Partitioned::fits_task))]
fn task_fits(run: usize, n: usize, channels: usize, m: usize, floats: usize, indices: usize) -> bool
    ensures { result ≡ fits_task run n channels m floats indices }
{
    1 <= channels
        && channels <= FUNCTIONAL_MAX_CHANNELS
        && search_fits(run, n, channels, m, floats, indices)
}

// Searches `run`, of `channels` channels with `n` readings each, for pieces of at least `m` readings.
// Writes the predecessors of 0 to `n` at the front of `indices`, and says whether `pool` had slots
// enough; everything else in the lent areas is zero afterwards, and the predecessors too where the slots
// were too few. Nothing is changed where the search does not fit. The numbers stand apart and the answer
// is a `bool`, as the contract `Partitioned` has them.
pub fn partition_functional(
    penalty: f64,
    run: &[f64],
    n: usize,
    channels: usize,
    m: usize,
    floats: &mut [f64],
    indices: &mut [usize],
    pool: &mut [f64],
) -> bool
    ensures { Partitioned (record { run = run.entry.now; n = n; channels = channels; m = m; penalty = penalty }) floats.old floats.new indices.old indices.new pool.old pool.new result }
{
    if task_fits(run.len(), n, channels, m, floats.len(), indices.len()) {
        let done = search_all(penalty, run, n, channels, m, floats, indices, pool);
        clear(floats, 0, floats.len());
        clear(pool, 0, pool.len());
        clear(indices, kept_front(done, n + 1), indices.len());
        return done;
    }
    false
}
